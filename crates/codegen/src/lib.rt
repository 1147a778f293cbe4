//! Printing of plant texts as JavaScript literals, and of raw text, into any code buffer, whole or not at all.
//!
//! A port of the string, template, directive, regex and name printing of the Rust crate oxc_codegen; its names and its order are
//! kept where they help. Read in this order:
//! - `strings`: the public calls, with what is promised of each literal;
//! - `fault`: why bytes that are checked first were not printed;
//! - `escape`: the class of each byte, as a table, and the two tables that are copies of it with entries replaced;
//! - `costs`: which quotes give the shortest literal;
//! - `turn`: what the text asks for at a place; the byte handlers are a match here;
//! - `escape_sequence`: the escapes themselves;
//! - `room`: printing where there is room;
//! - `state`: the cursor, which flushes chunks and escapes, and settles the quote when it is first needed;
//! - `print`: the literal of a text as one value, which measures and prints itself;
//! - `whole`: what prints itself, printed whole or not at all;
//! - `raw`: the public calls for raw text: template pieces, directives, patterns of regular expressions, names;
//! - `raw_kind`: the kinds of raw text, each with its check;
//! - `raw_style`: the steps in which each kind is printed;
//! - `raw_turn`, `raw_state`, `raw_print`: turn, place and printing of raw text: one loop that counts and one that prints, for all kinds.
//!
//! `specs/Strings.antt` defines the literal's bytes, `specs/Laws.antt` what holds of it; `specs/RawTexts.antt` and
//! `specs/RawLaws.antt` do so for raw text. `specs/Classes.antt`, `specs/Turns.antt`, `specs/Room.antt`, `specs/Cursor.antt`, `specs/RawTurns.antt` and
//! `specs/RawCursor.antt` are for the inner functions alone.
#![tactic(auto)]

mod costs;
mod escape;
mod escape_sequence;
pub mod fault;
mod print;
pub mod raw;
pub mod raw_kind;
mod raw_print;
mod raw_state;
pub mod raw_style;
mod raw_turn;
mod room;
mod state;
pub mod strings;
mod turn;
mod whole;

pub use fault::PrintFault;
pub use options::CodegenOptions;
pub use raw::{
    name_size, piece_size, print_directive_raw, print_name, print_raw_bytes, print_regex_pattern,
    print_tagged_quasi_raw, print_template_quasi_raw,
};
pub use raw_kind::RawKind;
pub use strings::{
    print_string, print_string_bytes, print_string_literal_as_template, samples_hold, string_size,
    template_size,
};
