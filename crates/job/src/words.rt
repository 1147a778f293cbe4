//! The keywords that a line may begin with.
ghost use Rattle.std.specs.Prelude.{◌≡◌};
ghost use Rattle.job.specs.Words.{kind_of, form_of, call_word, keyword_of};

use crate::bytes::{is_text, split_before};
use crate::calls::CallKind;

/// What a line is, by its keyword.
#[derive(Clone, Copy, Debug, PartialEq)]
pub enum Keyword {
    Options,
    Limit,
    /// A call that sets a text.
    Set(CallKind, Form),
}

/// How the text behind a keyword is written.
#[derive(Clone, Copy, Debug, PartialEq)]
pub enum Form {
    AsItStands,
    /// By pairs of hex digits.
    Hex(Flag),
}

/// What the surrogate flag of a text is to be.
// No `Option<bool>`: these are three words of the format, and read better by name.
#[derive(Clone, Copy, Debug, PartialEq)]
pub enum Flag {
    /// What is exact for the bytes.
    Exact,
    /// Set, whatever the bytes are.
    Lone,
    /// Not set, whatever the bytes are.
    Plain,
}

/// The keyword that a line's first word is.
// A chain of texts, here and below: see `is_text`.
#[tactic(auto, unfolding(crate::specs::Words::keyword_of))]
pub fn keyword_of(word: &[u8]) -> Option<Keyword>
    ensures the_keyword_if_it_is_one { result ≡ keyword_of word.now }
{
    if is_text(word, "options") {
        Some(Keyword::Options)
    } else if is_text(word, "limit") {
        Some(Keyword::Limit)
    } else {
        call_word(word)
    }
}

/// A call's name, then how its text is written.
fn call_word(word: &[u8]) -> Option<Keyword>
    ensures name_and_form { result ≡ call_word word.now }
{
    let (name, suffix) = split_before(word, |b| *b == b':');
    let kind = kind_of(name)?;
    let form = form_of(suffix)?;
    Some(Keyword::Set(kind, form))
}

fn kind_of(name: &[u8]) -> Option<CallKind>
    ensures by_its_keyword { result ≡ kind_of name.now }
{
    CallKind::ALL
        .into_iter()
        .find(|kind| is_text(name, kind.keyword()))
}

fn form_of(suffix: &[u8]) -> Option<Form>
    ensures by_its_suffix { result ≡ form_of suffix.now }
{
    if suffix.is_empty() {
        Some(Form::AsItStands)
    } else if is_text(suffix, ":hex") {
        Some(Form::Hex(Flag::Exact))
    } else if is_text(suffix, ":hex:lone") {
        Some(Form::Hex(Flag::Lone))
    } else if is_text(suffix, ":hex:plain") {
        Some(Form::Hex(Flag::Plain))
    } else {
        None
    }
}
