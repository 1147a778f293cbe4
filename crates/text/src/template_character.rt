//! Template characters: how many bytes the one at the front has, if there is one.
//!
//! A byte above 7F counts as a character of its own: behind a backslash, as anywhere, each character above 7F is allowed.
ghost use Rattle.std.specs.Prelude.{◌≡◌};
ghost use Rattle.std.specs.Char.{is_ascii_hexdigit};
ghost use Rattle.std.specs.List.{list_all};
ghost use Rattle.ecma262.specs.Read.{hex_value};
ghost use Rattle.text.specs.Template.{closes, begins_with_hex, escape_length, character_length};

/// The highest code point that an escape may name.
const MAX_CODE_POINT: u32 = 0x10FFFF;

// The library's digit under the name of its definition; crate `job` has its own, as a byte: sharing one line would tie two crates.
fn hex_value(b: u8) -> Option<u32>
    ensures { result ≡ hex_value b }
{
    (b as char).to_digit(16)
}

// The length of an escape \u{..} by the bytes behind its brace: hexadecimal digits, and the brace that closes them.
fn braced_escape_length(digits: &[u8]) -> Option<usize>
    ensures { result ≡ closes 3 0 digits.now }
{
    let mut value = 0;
    for (i, b) in digits.iter().enumerate() {
        if *b == b'}' {
            return Some(i + 4);
        }
        value = value * 16 + hex_value(*b)?;
        if value > MAX_CODE_POINT {
            return None;
        }
    }
    None
}

fn all_hex(digits: &[u8]) -> bool
    ensures { result ≡ list_all is_ascii_hexdigit digits.now }
{
    digits.iter().all(|b| b.is_ascii_hexdigit())
}

// Whether the bytes begin with n hexadecimal digits.
#[tactic(auto, unfolding(crate::specs::Template::begins_with_hex))]
fn begins_with_hex(n: usize, bytes: &[u8]) -> bool
    ensures { result ≡ begins_with_hex n bytes.now }
{
    n <= bytes.len() && all_hex(&bytes[..n])
}

// The bytes begin with a backslash, which a TemplateEscapeSequence or a LineContinuation has to follow.
fn escape_length(bytes: &[u8]) -> Option<usize>
    ensures { result ≡ escape_length bytes.now }
{
    match bytes {
        [_, b'x', digits @ ..] => begins_with_hex(2, digits).then_some(4),
        [_, b'u', b'{', b'}', ..] => None,
        [_, b'u', b'{', digits @ ..] => braced_escape_length(digits),
        [_, b'u', digits @ ..] => begins_with_hex(4, digits).then_some(6),
        [] | [_] | [_, b'0', b'0'..=b'9', ..] | [_, b'1'..=b'9', ..] => None,
        _ => Some(2),
    }
}

/// The length of the character at the front of the bytes; none where a backtick, a `${` or a bad backslash stands there.
pub fn character_length(bytes: &[u8]) -> Option<usize>
    ensures is_that_of_the_first_character { result ≡ character_length bytes.now }
{
    match bytes {
        [b'\\', ..] => escape_length(bytes),
        [] | [b'`', ..] | [b'$', b'{', ..] => None,
        _ => Some(1),
    }
}
