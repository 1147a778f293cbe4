//! What is said of a line that no job may have.
ghost use Rattle.std.specs.Prelude.{◌≡◌, Some};
ghost use Rattle.job.specs.Jobs.{faulted};
ghost use Rattle.job.specs.Messages.{awaited, told};
ghost use Rattle.job.specs.declared.faults.Unread.TheVariants.{Fault, Memory};

use std::alloc::{AllocError, AllocFailed};
use std::fmt;

/// What was expected where a line has something else.
#[derive(Clone, Copy, Debug, PartialEq)]
pub enum Expected {
    Keyword,
    OptionName,
    OptionOnce,
    OptionsOnce,
    OptionsFirst,
    LimitNumber,
    LimitOnce,
    LimitFirst,
    HexPairs,
}

impl Expected {
    /// The words that follow `expected`.
    // A public call of its own beside `Display`, for who wants the words without a writer.
    pub fn words(self) -> &'static str
        ensures what_was_expected { result.now ≡ awaited self }
    {
        match self {
            Expected::Keyword => "a comment, options, limit or a call at the line's start",
            Expected::OptionName => "single_quote, minify or ascii_only",
            Expected::OptionOnce => "each option at most once",
            Expected::OptionsOnce => "at most one options line",
            Expected::OptionsFirst => "options before the first call",
            Expected::LimitNumber => "a decimal number up to 65536",
            Expected::LimitOnce => "at most one limit line",
            Expected::LimitFirst => "limit before the first call",
            Expected::HexPairs => "pairs of hex digits",
        }
    }
}

impl fmt::Display for Expected {
    ghost output = { λ expected. Some (awaited expected) };

    fn fmt<W: fmt::Write>(&self, f: &mut fmt::Formatter<W>) -> fmt::Result {
        f.write_str(self.words())
    }
}

/// A line, counted from 1, and what was expected there.
#[derive(Clone, Copy, Debug, PartialEq)]
pub struct JobFault {
    pub line: usize,
    pub expected: Expected,
}

impl fmt::Display for JobFault {
    ghost output = { λ f. Some (told f) };

    fn fmt<W: fmt::Write>(&self, f: &mut fmt::Formatter<W>) -> fmt::Result {
        let JobFault { line, expected } = self;
        write!(f, "line {line}: expected {expected}")
    }
}

/// Why something was not read.
#[derive(Clone, Copy, Debug, PartialEq)]
pub enum Unread<F> {
    /// It has a fault.
    Fault(F),
    /// There is no memory for its texts.
    Memory,
}

/// Why a job was not read: a line is not one of a job, or memory is wanting.
pub type JobError = Unread<JobFault>;

/// Why a line was not read.
pub(crate) type LineError = Unread<Expected>;

impl<F> From<AllocError> for Unread<F> {
    ghost from_gives = { λ _ r. r ≡ Memory };

    fn from(_e: AllocError) -> Unread<F> {
        Unread::Memory
    }
}

impl<F, T: Drop> From<AllocFailed<T>> for Unread<F> {
    ghost from_gives = { λ _ r. r ≡ Memory };

    fn from(_e: AllocFailed<T>) -> Unread<F> {
        Unread::Memory
    }
}

impl From<Expected> for Unread<Expected> {
    ghost from_gives = { λ expected r. r ≡ Fault expected };

    fn from(awaited: Expected) -> Unread<Expected> {
        Unread::Fault(awaited)
    }
}

impl Unread<Expected> {
    /// The error with its line.
    pub(crate) fn at(self, line: usize) -> JobError
        ensures with_its_line { result ≡ faulted self line }
    {
        match self {
            Unread::Fault(expected) => Unread::Fault(JobFault { line, expected }),
            Unread::Memory => Unread::Memory,
        }
    }
}
