//! String literals, templates and names by ECMA-262, as relations, and functions that read them.
//!
//! Nothing is printed or parsed here: other crates state what their bytes mean in these words.
//! A source text is a list of code points, 0 to 10FFFF; the value of a literal is a list of
//! UTF-16 code units. Read in this order:
//!
//! - specs/Units: the quotes, and the code units of code points.
//! - specs/Lookahead: what a text begins with, as a test.
//! - specs/Literals: the grammar (12.9.4, 12.9.6) with the values SV and TV, as relations.
//! - specs/Read: the same as a function.
//! - specs/Template: template text, and the place of the first breach in other text.
//! - specs/Names: the grammar of names (12.7).
//! - specs/Laws: the theorems, each of which is the contract of a function below.
//! - specs/Samples: worked examples.
#![tactic(auto)]

ghost use Rattle.std.specs.Prelude.{◌≡◌};
ghost use Rattle.ecma262.specs.Laws.{Unique, Readable, WholeReadable, Followed, Closed, Unbroken, BrokenAt, BrokenBy, UniqueName};
ghost use Rattle.ecma262.specs.Samples.{Samples};
ghost use Rattle.ecma262.specs.Units.{mark};

/// The three delimiters of literals: `'`, `"` and, for a template without substitutions, `` ` ``.
#[derive(Clone, Copy, Debug, PartialEq, Eq)]
pub enum Quote {
    Single,
    Double,
    Backtick,
}

impl Quote {
    /// The byte that stands at both ends of the literal.
    pub fn mark(self) -> u8
        ensures is_its_code_point { result ≡ mark self }
    {
        match self {
            Quote::Single => b'\'',
            Quote::Double => b'"',
            Quote::Backtick => b'`',
        }
    }
}

/// By the standard a literal has one value and one end.
pub fn literals_have_one_value()
    ensures value_and_end_are_unique { Unique }
{}

/// The function of specs/Read reads what the standard's relations say, and no more.
pub fn reading_is_the_standards()
    ensures characters_are_read_by_the_grammar { Readable }
    ensures literals_are_read_by_the_grammar { WholeReadable }
{}

/// Template text that was checked alone may stand in front of a backtick or a substitution, and what
/// was checked alone for a string in front of the closing quote.
pub fn template_text_may_be_followed()
    ensures stays_template_text { Followed }
    ensures stays_between_its_quotes { Closed }
{}

/// The breach of specs/Template is the first by the standard: none in template text, else where the
/// longest readable beginning ends.
pub fn template_breach_is_the_first()
    ensures none_exactly_in_template_text { Unbroken }
    ensures ends_the_longest_readable_beginning { BrokenAt }
    ensures is_a_backtick_a_substitution_or_a_backslash { BrokenBy }
{}

/// By the standard a name has one end and one list of code points.
pub fn names_have_one_reading()
    ensures code_points_and_end_are_unique { UniqueName }
{}

/// Worked examples.
pub fn samples_hold()
    ensures breaches_stand_at_their_places { Samples }
{}
