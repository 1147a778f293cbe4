//! The decoder: the code point at a place, and how many bytes it has.
ghost use Rattle.std.specs.Prelude.{◌≡◌, ◌<◌, length, drop, slice_index};
ghost use Rattle.text.specs.Sequence.{seq_len, goes, held, sequence};

/// The length of the sequence that the byte b leads, if it leads one.
/// A lead byte above 7F has as many leading one bits as its character has bytes.
pub fn sequence_length(b: u8) -> Option<usize>
    ensures is_that_of_the_lead_byte { result ≡ seq_len b }
{
    match b.leading_ones() {
        0 => Some(1),
        2 => Some(2),
        3 => Some(3),
        4 => Some(4),
        _ => None,
    }
}

fn goes_on(b: u32) -> bool
    ensures { result ≡ goes b }
{
    matches!(b, 0x80..=0xBF)
}

/// The byte at a place, 0 past the end.
// No `Option`: to each caller the end is as a byte that has no part in anything, and the definitions read 0 there too.
pub fn byte_at(bytes: &[u8], at: usize) -> u32
    ensures is_the_byte_or_zero_past_the_end { result ≡ slice_index bytes.now at }
    ensures is_a_byte { result < 256 }
{
    bytes.get(at).map_or(0, |b| *b as u32)
}

// As `decode`, a pair with no `Option`.
// The code point c of n bytes, if its bytes go on and n is its shortest form; (0, 0) if not.
fn hold(all: bool, low: u32, c: u32, n: usize) -> (u32, usize)
    ensures { result ≡ held all low c n }
{
    if all && c >= low && c <= 0x10FFFF {
        (c, n)
    } else {
        (0, 0)
    }
}

/// The code point at a place together with its length; (0, 0) where no sequence begins there.
/// The pair, with no `Option` around it, is a fixed form of the project.
pub fn decode(bytes: &[u8], at: usize) -> (u32, usize)
    ensures is_the_sequence_there { result ≡ sequence (drop at bytes.now) }
{
    if at >= bytes.len() {
        return (0, 0);
    }
    let a = bytes[at] as u32;
    let Some(n) = sequence_length(bytes[at]) else {
        return (0, 0);
    };
    if n == 1 {
        return (a, 1);
    }
    let b = byte_at(bytes, at + 1);
    if n == 2 {
        return hold(goes_on(b), 0x80, a % 0x20 * 0x40 + b % 0x40, 2);
    }
    let c = byte_at(bytes, at + 2);
    if n == 3 {
        return hold(
            goes_on(b) & goes_on(c),
            0x800,
            a % 0x10 * 0x1000 + b % 0x40 * 0x40 + c % 0x40,
            3,
        );
    }
    let d = byte_at(bytes, at + 3);
    hold(
        goes_on(b) & goes_on(c) & goes_on(d),
        0x10000,
        a % 8 * 0x40000 + b % 0x40 * 0x1000 + c % 0x40 * 0x40 + d % 0x40,
        4,
    )
}
