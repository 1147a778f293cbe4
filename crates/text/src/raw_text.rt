//! Raw text: UTF-8 bytes, as they stand in a script.
ghost use Rattle.std.specs.Prelude.{◌≡◌};
ghost use Rattle.text.specs.Answers.{returned, raw_answer};

use crate::checked::{Checked, Rule, check_encoded};
use crate::fault::TextFault;
use crate::well_formed::Encoding;

/// The most bytes that raw text has: a rule of its own, as each limit is.
pub const MAX_RAW_TEXT: usize = 16384;

/// Whether these bytes are raw text, or why not.
pub fn check_raw_text(bytes: &[u8]) -> Result<(), TextFault>
    ensures refuses_by_one_two_in_order { returned result ≡ raw_answer bytes.now }
{
    check_encoded(Encoding::Utf8, MAX_RAW_TEXT, bytes)?;
    Ok(())
}

/// The rule of raw text.
#[derive(Drop)]
pub struct RawTextRule;

impl Rule for RawTextRule {
    ghost verdict = { raw_answer };

    fn check(bytes: &[u8]) -> Result<(), TextFault> {
        check_raw_text(bytes)
    }
}

/// Raw text that exists is within the limit and well-formed UTF-8.
pub type RawText = Checked<RawTextRule>;
