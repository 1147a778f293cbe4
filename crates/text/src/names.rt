//! Names: UTF-8 bytes that keep the rule of names.
ghost use Rattle.std.specs.Prelude.{◌≡◌, None, not, position};
ghost use Rattle.text.specs.declared.well_formed.Encoding.TheVariants.{Utf8};
ghost use Rattle.text.specs.Answers.{returned, name_answer};
ghost use Rattle.text.specs.Laws.{Named, NamePlaced};
ghost use Rattle.text.specs.Names.{starts_name, continues_name, name_breach};
ghost use Rattle.text.specs.Sequence.{breach, code_points};

use crate::checked::{Checked, Rule, check_encoded};
use crate::fault::TextFault;
use crate::well_formed::Encoding;

/// The most bytes that a name has.
pub const MAX_NAME: usize = 128;

// A byte of a character that may stand first in a name. Each byte of a character above 7F is above 7F.
fn starts_name(b: u8) -> bool
    ensures { result ≡ starts_name b }
{
    matches!(b, b'A'..=b'Z' | b'a'..=b'z' | b'$' | b'_' | 0x80..)
}

fn continues_name(b: u8) -> bool
    ensures { result ≡ continues_name b }
{
    starts_name(b) || b.is_ascii_digit()
}

// The place of the first byte that does not go on with a name.
fn stop_in(bytes: &[u8]) -> Option<usize>
    ensures { result ≡ position (λ b. not (continues_name b)) bytes.now }
{
    bytes.iter().position(|b| !continues_name(*b))
}

// The place of the first character that breaks the rule of names.
fn name_breach(bytes: &[u8]) -> Option<usize>
    requires well_formed { breach Utf8 bytes.now ≡ None }
    ensures is_the_rules { result ≡ name_breach (code_points bytes.now) }
{
    match bytes {
        [first, ..] if starts_name(*first) => stop_in(bytes),
        _ => Some(0),
    }
}

/// Whether these bytes are a name, or why not.
// As the check of template text, but for its limit, search and fault: three arguments would be no plainer.
pub fn check_name(bytes: &[u8]) -> Result<(), TextFault>
    ensures refuses_by_one_two_four_in_order { returned result ≡ name_answer bytes.now }
{
    check_encoded(Encoding::Utf8, MAX_NAME, bytes)?;
    match name_breach(bytes) {
        None => Ok(()),
        Some(place) => Err(TextFault::NotName(place)),
    }
}

/// The rule of names, with the limit and the encoding.
#[derive(Drop)]
pub struct NameRule;

impl Rule for NameRule {
    ghost verdict = { name_answer };

    fn check(bytes: &[u8]) -> Result<(), TextFault> {
        check_name(bytes)
    }
}

/// A name that exists is within the limit, well-formed UTF-8 and keeps the rule of names.
pub type Name = Checked<NameRule>;

/// The rule of names, as the maker goes by it, is the relation; and its place is that of the first breach.
pub fn names_keep_the_rule()
    ensures accepts_exactly_the_names { Named }
    ensures place_is_the_first_breach { NamePlaced }
{}
