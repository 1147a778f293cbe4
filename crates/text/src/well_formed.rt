//! The check of bytes, and its theorems.
ghost use Rattle.std.specs.Prelude.{◌≡◌};
ghost use Rattle.text.specs.Sequence.{breach, marked, is_surrogate, bars};
ghost use Rattle.text.specs.Answers.{checked};
ghost use Rattle.text.specs.Laws.{Accepted, Placed, Longest, Sequences, Marked, Read};

use crate::sequence::decode;

/// What surrogates may stand in the bytes.
#[derive(Debug, Clone, Copy, PartialEq, Eq)]
pub enum Encoding {
    /// Surrogates, but no lead surrogate directly before a trail surrogate.
    Wtf8,
    /// No surrogate.
    Utf8,
}

fn is_surrogate(c: u32) -> bool
    ensures { result ≡ is_surrogate c }
{
    matches!(c, 0xD800..=0xDFFF)
}

// Whether the code point c may not stand behind the code point before.
// A match on the encoding, and no closure: the definition that it is proved equal to has these two cases.
fn is_barred(encoding: Encoding, before: u32, c: u32) -> bool
    ensures { result ≡ bars encoding before c }
{
    match encoding {
        Encoding::Wtf8 => matches!((before, c), (0xD800..=0xDBFF, 0xDC00..=0xDFFF)),
        Encoding::Utf8 => is_surrogate(c),
    }
}

/// Whether there is a surrogate in bytes that are well formed; else the place of the first sequence that breaks the encoding.
pub fn check(encoding: Encoding, bytes: &[u8]) -> Result<bool, usize>
    ensures answers_the_flag_or_the_first_breach { result ≡ checked (breach encoding bytes.now) (marked 0 bytes.now) }
{
    let mut rest = bytes;
    // No code point stands before the first: 0 bars none.
    let mut before = 0;
    let mut lone = false;
    while let [b, tail @ ..] = rest {
        if b.is_ascii() {
            before = *b as u32;
            rest = tail;
        } else {
            let (c, n) = decode(rest, 0);
            if n == 0 || is_barred(encoding, before, c) {
                return Err(bytes.len() - rest.len());
            }
            lone |= is_surrogate(c);
            before = c;
            rest = &rest[n..];
        }
    }
    Ok(lone)
}

/// The check accepts exactly the well-formed bytes, and its place is that of the first breach.
pub fn check_is_the_encodings()
    ensures accepts_exactly_the_well_formed { Accepted }
    ensures place_is_the_first_breach { Placed }
    ensures nothing_longer_is_well_formed { Longest }
{}

/// What the decoder reads is what `encode` wrote; the flag is that of a surrogate; bytes are read as their code points.
pub fn decoding_is_the_encodings()
    ensures sequences_are_encodings { Sequences }
    ensures flag_is_set_by_surrogates { Marked }
    ensures code_points_are_read { Read }
{}
