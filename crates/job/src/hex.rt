//! Bytes that are written in hex.
ghost use Rattle.std.specs.Prelude.{◌≡◌};
ghost use Rattle.job.specs.Hex.{digit, pair, PairsRead};

use crate::bytes::is_blank;
use crate::faults::{Expected, LineError};
use std::alloc::Global;

/// The value of a hex digit, of either case.
// The library's digit as a byte; crate `text` has it as a number: sharing one line would tie two crates.
pub fn hex_value(b: u8) -> Option<u8>
    ensures value_of_a_digit { result ≡ digit b }
{
    let value = char::from(b).to_digit(16)?;
    Some(value as u8)
}

/// The byte that two hex digits write.
pub fn hex_pair(high: u8, low: u8) -> Option<u8>
    ensures byte_of_a_pair { result ≡ pair high low }
{
    Some(hex_value(high)? * 16 + hex_value(low)?)
}

/// The bytes that pairs of hex digits write, with any blanks between the pairs.
pub fn read_pairs(heap: Global, text: &[u8]) -> Result<Vec<u8>, LineError>
    ensures bytes_of_all_pairs { PairsRead text.now result }
{
    let mut bytes = Vec::new(heap);
    let mut rest = text;
    loop {
        rest = match rest {
            [] => return Ok(bytes),
            [first, after @ ..] if is_blank(first) => after,
            [_] => return Err(LineError::Fault(Expected::HexPairs)),
            [high, low, after @ ..] => {
                bytes.push(hex_pair(*high, *low).ok_or(Expected::HexPairs)?)?;
                after
            },
        };
    }
}
