//! What a job comes to.
ghost use Rattle.std.specs.Prelude.{◌≡◌, Some};
ghost use Rattle.job.specs.Words.{spelled};

use options::CodegenOptions;
use std::fmt;

/// A whole job: its settings, then its calls in the order of their lines.
#[derive(Drop)]
pub struct Job {
    pub options: CodegenOptions,
    /// The page's quota in bytes, where the job sets one.
    pub limit: Option<usize>,
    pub calls: Vec<Entry>,
}

/// A call and its line, counted from 1.
#[derive(Drop)]
pub struct Entry {
    pub line: usize,
    pub call: Call,
}

/// One text to set on the page.
#[derive(Drop)]
pub struct Call {
    pub kind: CallKind,
    pub bytes: Vec<u8>,
    /// Whether the text is said to hold a surrogate that stands alone: a flag beside the text, as the format has it.
    pub lone: bool,
}

/// How a text is set on the page.
#[derive(Clone, Copy, Debug, PartialEq)]
pub enum CallKind {
    /// In double or single quotes: `string`.
    Quoted,
    /// In whichever quotes are cheapest, the backtick among them: `string-bt`.
    QuotedOrBacktick,
    /// As a template with no substitution: `as-template`.
    Template,
}

impl CallKind {
    pub(crate) const ALL: [CallKind; 3] = [
        CallKind::Quoted,
        CallKind::QuotedOrBacktick,
        CallKind::Template,
    ];

    /// The keyword of the call.
    // Said once, here: printing and the search by keyword read it.
    pub fn keyword(self) -> &'static str
        ensures the_keyword { result.now ≡ spelled self }
    {
        match self {
            CallKind::Quoted => "string",
            CallKind::QuotedOrBacktick => "string-bt",
            CallKind::Template => "as-template",
        }
    }
}

impl fmt::Display for CallKind {
    ghost output = { λ kind. Some (spelled kind) };

    fn fmt<W: fmt::Write>(&self, f: &mut fmt::Formatter<W>) -> fmt::Result {
        f.write_str(self.keyword())
    }
}
