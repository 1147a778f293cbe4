//! The class of each byte.
ghost use Rattle.std.specs.Prelude.{◌≡◌, true, false};
ghost use Rattle.codegen.specs.Classes.{table_of, table_or};

use Escape::*;

/// What a byte may ask for where it stands in a text.
#[derive(Clone, Copy)]
pub enum Escape {
    /// No escape.
    No,
    /// NUL.
    NU,
    /// Bell.
    BE,
    /// Backspace.
    BK,
    /// Vertical tab.
    VT,
    /// Form feed.
    FF,
    /// Line feed.
    NL,
    /// Carriage return.
    CR,
    /// Escape.
    ES,
    /// Backslash.
    BS,
    /// Single quote.
    SQ,
    /// Double quote.
    DQ,
    /// Backtick.
    BQ,
    /// Dollar sign.
    DO,
    /// Less-than sign.
    LT,
    /// First byte of U+2028 and U+2029, among others.
    LS,
    /// First byte of U+00A0, among others.
    NB,
    /// First byte of the surrogates and of U+D000 to U+D7FF.
    SU,
    /// First byte of a character above U+007F, where all of them are escaped.
    UC,
}

/// The class of each byte in a text without surrogates.
#[rattlefmt::skip]
static ESCAPES: [Escape; 256] = [
    // 0  1   2   3   4   5   6   7   8   9   A   B   C   D   E   F
    NU, No, No, No, No, No, No, BE, BK, No, NL, VT, FF, CR, No, No, // 0
    No, No, No, No, No, No, No, No, No, No, No, ES, No, No, No, No, // 1
    No, No, DQ, No, DO, No, No, SQ, No, No, No, No, No, No, No, No, // 2
    No, No, No, No, No, No, No, No, No, No, No, No, LT, No, No, No, // 3
    No, No, No, No, No, No, No, No, No, No, No, No, No, No, No, No, // 4
    No, No, No, No, No, No, No, No, No, No, No, No, BS, No, No, No, // 5
    BQ, No, No, No, No, No, No, No, No, No, No, No, No, No, No, No, // 6
    No, No, No, No, No, No, No, No, No, No, No, No, No, No, No, No, // 7
    No, No, No, No, No, No, No, No, No, No, No, No, No, No, No, No, // 8
    No, No, No, No, No, No, No, No, No, No, No, No, No, No, No, No, // 9
    No, No, No, No, No, No, No, No, No, No, No, No, No, No, No, No, // A
    No, No, No, No, No, No, No, No, No, No, No, No, No, No, No, No, // B
    No, No, NB, No, No, No, No, No, No, No, No, No, No, No, No, No, // C
    No, No, No, No, No, No, No, No, No, No, No, No, No, No, No, No, // D
    No, No, LS, No, No, No, No, No, No, No, No, No, No, No, No, No, // E
    No, No, No, No, No, No, No, No, No, No, No, No, No, No, No, No, // F
];

// A function for each table: that they are copies of `ESCAPES` with entries replaced is a fixed form of the project.
// Neither is inlined: the caller would clear the place of a table at every print, also where the text needs none.
// As `ESCAPES`, for a text with lone surrogates: ED leads to them.
#[inline(never)]
fn escapes_wtf8() -> [Escape; 256]
    ensures { result ≡ table_of false true }
{
    let mut table = ESCAPES;
    table[0xED] = SU;
    table
}

// As `ESCAPES`, where every character above U+007F is escaped: each lead byte leads to one.
#[inline(never)]
fn escapes_ascii_only() -> [Escape; 256]
    ensures { result ≡ table_of true false }
{
    let mut table = ESCAPES;
    table[0xC0..0x100].copy_from_slice(&[UC; 0x40]);
    table[0xED] = SU;
    table
}

/// The table for an option and a text, made once for a print where it is not `ESCAPES` itself.
#[derive(Drop)]
pub struct EscapeTable {
    own: Option<[Escape; 256]>,
    pub ascii_only: bool,
    pub lone: bool,
    ghost is_the_table: { table_or own ≡ table_of ascii_only lone },
}

impl EscapeTable {
    pub fn new(ascii_only: bool, lone: bool) -> EscapeTable
        ensures option { result.ascii_only ≡ ascii_only }
        ensures text { result.lone ≡ lone }
    {
        let own = if ascii_only {
            Some(escapes_ascii_only())
        } else if lone {
            Some(escapes_wtf8())
        } else {
            None
        };
        EscapeTable {
            own,
            ascii_only,
            lone,
        }
    }

    /// The class of each byte.
    pub fn classes(&self) -> &[Escape; 256]
        ensures { result.now ≡ table_of self.now.ascii_only self.now.lone }
    {
        table_or_escapes(&self.own)
    }
}

// The table that was made, or else `ESCAPES`.
fn table_or_escapes(own: &Option<[Escape; 256]>) -> &[Escape; 256]
    ensures { result.now ≡ table_or own.now }
{
    own.as_ref().unwrap_or(&ESCAPES)
}
