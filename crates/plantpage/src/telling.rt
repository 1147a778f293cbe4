//! The line that tells of a call.
ghost use Rattle.std.specs.Prelude.{Some};
ghost use Rattle.plantpage.specs.Telling.{line_told};

use codegen::PrintFault;
use job::CallKind;
use refusal::Refusal;
use std::fmt;

/// What came of the call on a line: how many bytes it printed, or why it was refused and left the page as it was.
#[derive(Clone, Copy)]
pub struct Told {
    pub line: usize,
    pub kind: CallKind,
    pub answer: Result<usize, PrintFault>,
}

impl fmt::Display for Told {
    ghost output = { λ t. Some (line_told t) };

    fn fmt<W: fmt::Write>(&self, f: &mut fmt::Formatter<W>) -> fmt::Result {
        let line = self.line;
        let kind = self.kind;
        match self.answer.map_err(Refusal::from) {
            Ok(printed) => write!(f, "line {line}: {kind}: 0, {printed} bytes"),
            Err(refusal) => write!(f, "line {line}: {kind}: {refusal}"),
        }
    }
}
