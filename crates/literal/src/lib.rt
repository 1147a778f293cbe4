//! What is printed of a text as a JavaScript literal, what is printed of raw text, and what holds of it.
//!
//! The text of a literal is a list of code points, in which lone surrogates may stand; the literal is
//! one without any. Raw text is JavaScript already: pieces of templates, directives, patterns of regular
//! expressions and names. No bytes are written here: a printer is proved to write the bytes of what
//! specs/ defines, and then all the laws hold of what it wrote. Read in this order:
//!
//! - `EscapeSequence`, `HexCase`: the escapes.
//! - specs/Escapes: the rules by which a character is escaped, and the literal of a text.
//! - specs/Quotes: which quotes are chosen where the shortest literal is asked for.
//! - specs/Laws: the theorems, each of which is the contract of a function below.
//! - `NonAsciiEscape`: where raw text stands.
//! - specs/Raw: what is printed of raw text, step by step, and specs/RawWalk: the same in one walk.
//! - specs/Regex: the tokens of a pattern.
//! - specs/RawLaws: the theorems on raw text.
//! - specs/Samples: worked examples.
//! - specs/Quiet: a test of escapes that proofs use.
#![tactic(auto)]

ghost use Rattle.literal.specs.Laws.{Denoted, Returned, Scalars, Tagless, InBytes, Plain, Shortest, Standing};
ghost use Rattle.literal.specs.RawLaws.{PieceInOneWalk, TaggedInOneWalk, OthersInOneWalk, PieceKept, TaggedKept, DirectiveKept, RegexKept, NameRead, PieceTagless, TaggedTagless, RawAscii};
ghost use Rattle.literal.specs.Samples.{Samples};

/// The letters of hexadecimal digits: `a` to `f`, or `A` to `F`.
#[derive(Clone, Copy, Debug, PartialEq, Eq)]
pub enum HexCase {
    Lower,
    Upper,
}

/// How a character is escaped, in the words of ECMA-262.
#[derive(Clone, Copy, Debug, PartialEq, Eq)]
pub enum EscapeSequence {
    /// `\0`.
    Null,
    /// A backslash and this ASCII character.
    Character(u8),
    /// `\xNN`.
    Hex,
    /// `\uNNNN`.
    Unicode(HexCase),
    /// `\u{N..}`.
    CodePoint,
}

/// Where raw text stands, which decides how its characters above 7F are escaped.
#[derive(Clone, Copy, Debug, PartialEq, Eq)]
pub enum NonAsciiEscape {
    /// A name: backslashes have no part in it.
    Identifier,
    /// A regular expression: what is above FFFF becomes two escapes, one for each code unit.
    RegExp,
    /// A piece of a template.
    TemplateRaw,
    /// A directive, which stands between the quotes of a string.
    Directive,
}

/// A literal stands for its text, by the grammar and for a reader.
pub fn literals_denote_their_text()
    ensures value_is_the_text { Denoted }
    ensures reading_gives_back_the_text { Returned }
{}

/// A literal never ends the script that it stands in.
pub fn literals_hold_no_script_end()
    ensures no_tag_in_code_points { Tagless }
    ensures no_tag_in_bytes { InBytes }
{}

/// A literal has a form in UTF-8, and where it is asked for in ASCII.
pub fn literals_can_be_written()
    ensures scalar_values_alone { Scalars }
    ensures ascii_where_asked_for { Plain }
{}

/// The chosen quotes give the shortest literal.
pub fn chosen_quotes_are_the_shortest()
    ensures no_permitted_quote_is_shorter { Shortest }
{}

/// What the contract of a printer may promise of a literal.
pub fn literals_stand()
    ensures every_literal_stands { Standing }
{}

/// The steps in which raw text is printed make one walk.
pub fn raw_text_is_printed_in_one_walk()
    ensures steps_of_a_piece_are_one_walk { PieceInOneWalk }
    ensures step_of_a_tagged_piece_is_one_walk { TaggedInOneWalk }
    ensures step_of_other_raw_text_is_one_walk { OthersInOneWalk }
{}

/// Pieces of templates, printed, keep their value.
pub fn pieces_keep_their_value()
    ensures template_text_keeps_its_value { PieceKept }
    ensures tagged_template_text_keeps_its_value { TaggedKept }
{}

/// Directives, patterns of regular expressions and names, printed, mean what they meant.
pub fn other_raw_text_keeps_its_meaning()
    ensures directive_keeps_its_value { DirectiveKept }
    ensures pattern_keeps_its_tokens { RegexKept }
    ensures name_is_read_as_the_name { NameRead }
{}

/// A piece of a template never ends the script that it stands in.
pub fn pieces_hold_no_script_end()
    ensures no_tag_in_a_piece { PieceTagless }
    ensures no_tag_in_a_tagged_piece { TaggedTagless }
{}

/// Raw text, but for tagged pieces, is printed in ASCII where that is asked for.
pub fn raw_text_can_be_written_in_ascii()
    ensures ascii_where_asked_for { RawAscii }
{}

/// Worked examples.
pub fn samples_hold()
    ensures samples_are_printed_so { Samples }
{}
