//! The surrogate flag that is exact for a text.
ghost use Rattle.std.specs.Prelude.{◌≡◌, ◌&&◌, ◌==◌, nat_le};
ghost use Rattle.text.specs.Sequence.{marked};

/// The first byte of each surrogate.
const LEAD: u8 = 0xED;

/// Whether these two bytes begin a surrogate.
fn begins_surrogate(lead: u8, next: u8) -> bool
    ensures lead_then_high_half { result ≡ (lead == 0xED && nat_le 0xA0 next && nat_le next 0xBF) }
{
    lead == LEAD && (0xA0..=0xBF).contains(&next)
}

/// Whether the bytes hold a surrogate anywhere.
pub fn holds_surrogate(bytes: &[u8]) -> bool
    ensures some_pair_begins_one { result ≡ marked 0 bytes.now }
{
    bytes
        .windows(2)
        .any(|pair| begins_surrogate(pair[0], pair[1]))
}
