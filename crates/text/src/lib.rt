//! Text values: bytes that were checked once, when the value was made.
//!
//! Read in this order:
//! - `sequence`: the decoder, one code point and its length at a place;
//! - `well_formed`: the check of WTF-8 and of UTF-8, which answers the first breach's place;
//! - `fault`: why a value is not made, with the number 1 to 5 of each reason;
//! - `checked`: the tests that every check begins with, and the values that a rule accepts;
//! - `js_str`, `raw_text`, `names`: three values, each with its rule, and the check of bytes that its maker goes by;
//! - `template_character`: how many bytes a character of template text has, its escapes among them;
//! - `template_text`: the fourth value.
//!
//! `specs/Wtf8.antt` defines well-formed bytes from the WTF-8 specification, `specs/Sequence.antt` what the code computes, and
//! `specs/Laws.antt` has the theorems that tie the two. The breach of template text is defined in crate `ecma262`; `specs/Template.antt` says
//! what the code computes of it. Nothing here allocates: a maker takes over the bytes that it is given.
#![tactic(auto)]

pub mod checked;
pub mod fault;
pub mod js_str;
pub mod names;
pub mod raw_text;
pub mod sequence;
mod template_character;
pub mod template_text;
pub mod well_formed;

pub use checked::{Checked, Rule};
pub use fault::TextFault;
pub use js_str::{JSStr, check_text};
pub use names::{Name, NameRule, check_name, names_keep_the_rule};
pub use raw_text::{RawText, RawTextRule, check_raw_text};
pub use sequence::{byte_at, decode, sequence_length};
pub use template_text::{TemplateText, TemplateTextRule, check_template_text};
pub use well_formed::{Encoding, check};
