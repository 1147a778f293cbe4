//! Template text: UTF-8 bytes of which all is TemplateCharacters.
ghost use Rattle.std.specs.Prelude.{◌≡◌, None};
ghost use Rattle.ecma262.specs.Template.{template_breach};
ghost use Rattle.text.specs.declared.well_formed.Encoding.TheVariants.{Utf8};
ghost use Rattle.text.specs.Answers.{returned, template_answer};
ghost use Rattle.text.specs.Sequence.{breach, code_points};

use crate::checked::{Checked, Rule, check_encoded};
use crate::fault::TextFault;
use crate::template_character::character_length;
use crate::well_formed::Encoding;

/// The most bytes that template text has: a rule of its own, as each limit is.
pub const MAX_TEMPLATE_TEXT: usize = 16384;

// The place of the first backtick, `${` or bad backslash.
fn template_breach(bytes: &[u8]) -> Option<usize>
    requires well_formed { breach Utf8 bytes.now ≡ None }
    ensures is_the_standards { result ≡ template_breach (code_points bytes.now) }
{
    let mut rest = bytes;
    while !rest.is_empty() {
        match character_length(rest) {
            Some(n) => rest = &rest[n..],
            None => return Some(bytes.len() - rest.len()),
        }
    }
    None
}

/// Whether these bytes are template text, or why not.
pub fn check_template_text(bytes: &[u8]) -> Result<(), TextFault>
    ensures refuses_by_one_two_five_in_order { returned result ≡ template_answer bytes.now }
{
    check_encoded(Encoding::Utf8, MAX_TEMPLATE_TEXT, bytes)?;
    match template_breach(bytes) {
        None => Ok(()),
        Some(place) => Err(TextFault::NotTemplate(place)),
    }
}

/// The rule of template text.
#[derive(Drop)]
pub struct TemplateTextRule;

impl Rule for TemplateTextRule {
    ghost verdict = { template_answer };

    fn check(bytes: &[u8]) -> Result<(), TextFault> {
        check_template_text(bytes)
    }
}

/// Template text that exists is within the limit, well-formed UTF-8 and has no breach.
pub type TemplateText = Checked<TemplateTextRule>;
