//! One turn of the printer: what the text asks for at a place. The byte handlers are a match here.
ghost use Rattle.std.specs.Prelude.{◌≡◌, ◌<◌, length, drop, slice_index};
ghost use Rattle.ecma262.specs.Lookahead.{opens};
ghost use Rattle.literal.specs.Escapes.{tag};
ghost use Rattle.codegen.specs.Classes.{class_in, table_of, short_of, wide_of};
ghost use Rattle.codegen.specs.Turns.{Fit, Decided, decides_at, takes, printed_size};

use crate::escape::{Escape, EscapeTable};
use crate::escape_sequence::escape_size;
use ecma262::Quote;
use literal::{EscapeSequence, HexCase};
use text::{byte_at, decode, sequence_length};

/// `{`, which makes a `$` before it begin a substitution.
pub const OPENING_BRACE: u32 = 0x7B;

/// U+00A0.
const NBSP: u32 = 0xA0;

/// U+2028.
const LINE_SEPARATOR: u32 = 0x2028;

/// U+2029.
const PARAGRAPH_SEPARATOR: u32 = 0x2029;

/// What is done at a place of the text.
#[derive(Clone, Copy)]
pub enum Turn {
    /// This many bytes stand for themselves.
    Plain(usize),
    /// This character, of so many bytes, is escaped.
    Escaped(EscapeSequence, u32, usize),
    /// `</` before `script`: the slash is escaped.
    Tag,
}

impl Turn {
    /// How many bytes of the text it takes.
    pub fn takes(self) -> usize
        ensures { result ≡ takes self }
    {
        match self {
            Turn::Plain(n) => n,
            Turn::Escaped(_, _, n) => n,
            Turn::Tag => 2,
        }
    }

    /// How many bytes are printed.
    pub fn size(self) -> usize
        ensures { result ≡ printed_size self }
    {
        match self {
            Turn::Plain(n) => n,
            Turn::Escaped(e, c, _) => escape_size(c, e),
            Turn::Tag => 3,
        }
    }
}

/// How a text is escaped, with the table of the classes of its bytes.
#[derive(Clone, Copy)]
pub struct Escaping<'t> {
    table: &'t [Escape; 256],
    pub ascii_only: bool,
    pub lone: bool,
    ghost is_the_table: { table.now ≡ table_of ascii_only lone },
}

// The escape of an ASCII character of this class before the byte next.
fn short_escape(q: Quote, class: Escape, next: u32) -> Option<EscapeSequence>
    ensures { result ≡ short_of q class next }
{
    match class {
        Escape::NU => Some(match next {
            0x30..=0x39 => EscapeSequence::Hex,
            _ => EscapeSequence::Null,
        }),
        Escape::BE | Escape::ES => Some(EscapeSequence::Hex),
        Escape::BK => Some(EscapeSequence::Character(b'b')),
        Escape::VT => Some(EscapeSequence::Character(b'v')),
        Escape::FF => Some(EscapeSequence::Character(b'f')),
        Escape::NL => (q != Quote::Backtick).then_some(EscapeSequence::Character(b'n')),
        Escape::CR => Some(EscapeSequence::Character(b'r')),
        Escape::BS => Some(EscapeSequence::Character(b'\\')),
        Escape::SQ => (q == Quote::Single).then_some(EscapeSequence::Character(b'\'')),
        Escape::DQ => (q == Quote::Double).then_some(EscapeSequence::Character(b'"')),
        Escape::BQ => (q == Quote::Backtick).then_some(EscapeSequence::Character(b'`')),
        Escape::DO => (q == Quote::Backtick && next == OPENING_BRACE).then_some(
            EscapeSequence::Character(b'$'),
        ),
        Escape::No | Escape::LT | Escape::LS | Escape::NB | Escape::SU | Escape::UC => None,
    }
}

// The escape of a character above 7F.
fn wide_escape(ascii_only: bool, c: u32) -> Option<EscapeSequence>
    ensures { result ≡ wide_of ascii_only c }
{
    match c {
        0xD800..=0xDFFF => Some(EscapeSequence::Unicode(HexCase::Lower)),
        0..=0xFFFF if ascii_only => Some(EscapeSequence::Unicode(HexCase::Upper)),
        _ if ascii_only => Some(EscapeSequence::CodePoint),
        NBSP => Some(EscapeSequence::Hex),
        LINE_SEPARATOR | PARAGRAPH_SEPARATOR => Some(EscapeSequence::Unicode(HexCase::Upper)),
        _ => None,
    }
}

/// Whether the text here begins with `</script`, in any case of the letters.
pub fn is_script_close_tag(text: &[u8]) -> bool
    ensures { result ≡ opens tag text.now }
{
    text.len() >= 8 && text[..8].eq_ignore_ascii_case(b"</script")
}

// By place, and each asks that it is inside: a slice from there on would be no plainer, since the cursor that calls has places.
impl<'t> Escaping<'t> {
    /// Escaping by this table.
    pub fn new(table: &'t EscapeTable) -> Escaping<'t>
        ensures option { result.ascii_only ≡ table.entry.now.ascii_only }
        ensures text { result.lone ≡ table.entry.now.lone }
    {
        Escaping {
            table: table.classes(),
            ascii_only: table.ascii_only,
            lone: table.lone,
        }
    }

    // The class of the byte at a place.
    fn class_at(&self, bytes: &[u8], at: usize) -> Escape
        requires { at < length bytes.now }
        ensures { result ≡ class_in self.now.ascii_only self.now.lone (slice_index bytes.now at) }
    {
        self.table[bytes[at] as usize]
    }

    /// Whether the quote in use decides what is printed at a place.
    pub fn quote_decides(&self, bytes: &[u8], at: usize) -> bool
        requires { at < length bytes.now }
        ensures { result ≡ decides_at self.now.ascii_only self.now.lone bytes.now at }
    {
        match self.class_at(bytes, at) {
            Escape::NL | Escape::SQ | Escape::DQ | Escape::BQ => true,
            Escape::DO => byte_at(bytes, at + 1) == OPENING_BRACE,
            _ => false,
        }
    }

    /// What is done at a place where a character begins, in quotes q.
    pub fn next_turn(&self, q: Quote, bytes: &[u8], at: usize) -> Turn
        requires inside { at < length bytes.now }
        requires fit { Fit self.now.lone (drop at bytes.now) }
        ensures { Decided q self.now.ascii_only self.now.lone bytes.now at result }
    {
        let b = bytes[at];
        let class = self.class_at(bytes, at);
        match class {
            Escape::No => Turn::Plain(sequence_length(b).unwrap()),
            Escape::LT => {
                if is_script_close_tag(&bytes[at..]) {
                    Turn::Tag
                } else {
                    Turn::Plain(1)
                }
            }
            Escape::LS | Escape::NB | Escape::SU | Escape::UC => {
                let (c, n) = decode(bytes, at);
                match wide_escape(self.ascii_only, c) {
                    Some(e) => Turn::Escaped(e, c, n),
                    None => Turn::Plain(n),
                }
            }
            _ => {
                match short_escape(q, class, byte_at(bytes, at + 1)) {
                    Some(e) => Turn::Escaped(e, b as u32, 1),
                    None => Turn::Plain(1),
                }
            }
        }
    }
}
