//! Escape sequences, printed whole or not at all.
ghost use Rattle.std.specs.Prelude.{◌≡◌, ◌/◌, ◌%◌, ◌<◌, ◌≤◌, [], ◌∷◌, length};
ghost use Rattle.literal.specs.Escapes.{behind, hex_digit};
ghost use Rattle.buffer.specs.Printing.{Prints};

use buffer::{BufferFault, CodeBuffer};
use literal::{EscapeSequence, HexCase};

// The digit of n, below 16, with these letters: the library's digits have one case alone.
fn hex_digit(letters: HexCase, n: u32) -> u8
    requires { n < 16 }
    ensures { result ≡ hex_digit letters n }
{
    let d = n as u8;
    if d < 10 {
        b'0' + d
    } else {
        match letters {
            HexCase::Lower => b'a' - 10 + d,
            HexCase::Upper => b'A' - 10 + d,
        }
    }
}

// The last four hexadecimal digits of c, with these letters.
fn four_hex_digits(letters: HexCase, c: u32) -> [u8; 4]
    ensures { result ≡ hex_digit letters (c / 0x1000 % 0x10) ∷ hex_digit letters (c / 0x100 % 0x10) ∷ hex_digit letters (c / 0x10 % 0x10) ∷ hex_digit letters (c % 0x10) ∷ [] }
{
    [
        hex_digit(letters, c / 0x1000 % 0x10),
        hex_digit(letters, c / 0x100 % 0x10),
        hex_digit(letters, c / 0x10 % 0x10),
        hex_digit(letters, c % 0x10),
    ]
}

/// How many bytes an escape of the character c has.
pub fn escape_size(c: u32, e: EscapeSequence) -> usize
    ensures is { result ≡ length (0x5C ∷ behind c e) }
    ensures small { result ≤ 10 }
{
    match e {
        EscapeSequence::Null | EscapeSequence::Character(_) => 2,
        EscapeSequence::Hex => 4,
        EscapeSequence::Unicode(_) => 6,
        EscapeSequence::CodePoint => if c < 0x100000 { 9 } else { 10 }
    }
}

/// Prints an escape of the character c.
pub fn print_escape<B: CodeBuffer>(
    code: &mut B,
    c: u32,
    e: EscapeSequence,
) -> Result<(), BufferFault>
    ensures prints_the_escape_whole_or_not_at_all { Prints B.CodeBuffer code.old code.new (0x5C ∷ behind c e) result }
{
    match e {
        EscapeSequence::Null => code.print(b"\\0"),
        EscapeSequence::Character(l) => code.print(&[b'\\', l]),
        EscapeSequence::Hex => {
            let high = hex_digit(HexCase::Upper, c / 0x10 % 0x10);
            let low = hex_digit(HexCase::Upper, c % 0x10);
            code.print(&[b'\\', b'x', high, low])
        }
        EscapeSequence::Unicode(letters) => {
            let [a, b, d, e] = four_hex_digits(letters, c);
            code.print(&[b'\\', b'u', a, b, d, e])
        }
        EscapeSequence::CodePoint => {
            let a = hex_digit(HexCase::Upper, c / 0x10000 % 0x10);
            let [b, d, e, f] = four_hex_digits(HexCase::Upper, c);
            if c < 0x100000 {
                code.print(&[b'\\', b'u', b'{', a, b, d, e, f, b'}'])
            } else {
                code.print(&[b'\\', b'u', b'{', b'1', a, b, d, e, f, b'}'])
            }
        }
    }
}
