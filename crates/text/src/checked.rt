//! Bytes that a rule accepts, as a value.
ghost use Rattle.std.specs.Prelude.{◌≡◌, ℕ, List, IfOk};
ghost use Rattle.refusal.specs.Returned.{Returned};
ghost use Rattle.text.specs.Answers.{returned, encoded};

use crate::fault::TextFault;
use crate::well_formed::{Encoding, check};
use std::marker::PhantomData;

/// Whether there is a surrogate in bytes that are within the limit and well formed; else the first of the two that they break.
pub(crate) fn check_encoded(
    encoding: Encoding,
    limit: usize,
    bytes: &[u8],
) -> Result<bool, TextFault>
    ensures answers_the_flag_or_the_first_fault { result ≡ encoded encoding limit bytes.now }
{
    if bytes.len() > limit {
        return Err(TextFault::TooLong);
    }
    check(encoding, bytes).map_err(TextFault::Malformed)
}

/// What bytes are checked for.
pub trait Rule {
    ghost verdict: { List ℕ → Returned };

    /// Whether these bytes keep the rule, or why not.
    fn check(bytes: &[u8]) -> Result<(), TextFault>
        ensures refuses_as_the_rule_says { returned result ≡ verdict bytes.now };
}

/// Bytes that exist keep the rule.
#[derive(Drop)]
pub struct Checked<R: Rule> {
    bytes: Vec<u8>,
    rule: PhantomData<R>,
    ghost good: { (R.verdict bytes.items).number ≡ 0 },
}

impl<R: Rule> Checked<R> {
    /// The value of these bytes. A refusal lets them go.
    pub fn new(bytes: Vec<u8>) -> Result<Checked<R>, TextFault>
        ensures refuses_as_the_rule_says { returned result ≡ R.verdict bytes.items }
        ensures holds_the_bytes { IfOk result (λ t. t.bytes ≡ bytes) }
    {
        R::check(bytes.as_slice())?;
        Ok(Checked {
            bytes,
            rule: PhantomData,
        })
    }

    pub fn as_bytes(&self) -> &[u8]
        ensures are_its_bytes { result.now ≡ self.now.bytes.items }
    {
        self.bytes.as_slice()
    }
}
