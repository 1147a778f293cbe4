//! Reads a whole job.
ghost use Rattle.std.specs.Prelude.{◌≡◌, true};
ghost use Rattle.job.specs.Calls.{TextRead, CallRead, flag_of};
ghost use Rattle.job.specs.Settings.{Taken};
ghost use Rattle.job.specs.Jobs.{LineTaken, JobRead, is_call, drafted, may_set, line_on, options_line, limit_line, call_line};

use crate::bytes::{LINE_FEED, cut_word, is_ignored};
use crate::calls::{Call, CallKind, Entry, Job};
use crate::faults::{Expected, JobError, LineError};
use crate::hex::read_pairs;
use crate::settings::{limit_of, options_of};
use crate::surrogates::holds_surrogate;
use crate::words::{Flag, Form, Keyword, keyword_of};
use options::CodegenOptions;
use std::alloc::Global;

/// The lines read so far.
#[derive(Drop)]
struct Draft {
    options: Option<CodegenOptions>,
    limit: Option<usize>,
    calls: Vec<Entry>,
}

/// The job that the text is, or the first line that is none of a job's.
pub fn read_job(heap: Global, text: &[u8]) -> Result<Job, JobError>
    ensures the_job_or_its_first_fault { JobRead text.now result }
{
    let mut draft = Draft {
        options: None,
        limit: None,
        calls: Vec::new(heap),
    };
    for (before, line) in text.split(|b| *b == LINE_FEED).enumerate() {
        let number = before + 1;
        if let Err(error) = draft.take_line(heap, number, line) {
            return Err(error.at(number));
        }
    }
    let Draft {
        options,
        limit,
        calls,
    } = draft;
    Ok(Job {
        options: options.unwrap_or(CodegenOptions::NONE),
        limit,
        calls,
    })
}

impl Draft {
    /// Takes one line in.
    fn take_line(&mut self, heap: Global, number: usize, line: &[u8]) -> Result<(), LineError>
        ensures what_the_line_makes { LineTaken (is_call line.now) (line_on (drafted self.old) number line.now) result (drafted self.new) }
    {
        if is_ignored(line) {
            return Ok(());
        }
        let (word, argument) = cut_word(line);
        match keyword_of(word) {
            None => Err(LineError::Fault(Expected::Keyword)),
            Some(Keyword::Options) => Ok(self.take_options(argument)?),
            Some(Keyword::Limit) => Ok(self.take_limit(argument)?),
            Some(Keyword::Set(kind, form)) => self.take_call(heap, number, kind, form, argument),
        }
    }

    /// Whether a setting may stand here: before the first call, and once.
    fn may_set(&self, already: bool, first: Expected, once: Expected) -> Result<(), Expected>
        ensures before_the_first_call_and_once { result ≡ may_set (drafted self.now) already first once }
    {
        if !self.calls.is_empty() {
            return Err(first);
        }
        if already {
            return Err(once);
        }
        Ok(())
    }

    // Two functions: each has its words, its field and its parser; what they share is `may_set`.
    fn take_options(&mut self, argument: &[u8]) -> Result<(), Expected>
        ensures what_the_line_makes { Taken (options_line (drafted self.old) argument.now) result (drafted self.new) }
    {
        let already = self.options.is_some();
        self.may_set(already, Expected::OptionsFirst, Expected::OptionsOnce)?;
        self.options = Some(options_of(argument)?);
        Ok(())
    }

    fn take_limit(&mut self, argument: &[u8]) -> Result<(), Expected>
        ensures what_the_line_makes { Taken (limit_line (drafted self.old) argument.now) result (drafted self.new) }
    {
        let already = self.limit.is_some();
        self.may_set(already, Expected::LimitFirst, Expected::LimitOnce)?;
        self.limit = Some(limit_of(argument)?);
        Ok(())
    }

    fn take_call(
        &mut self,
        heap: Global,
        number: usize,
        kind: CallKind,
        form: Form,
        argument: &[u8],
    ) -> Result<(), LineError>
        ensures behind_the_calls_before { LineTaken true (call_line (drafted self.old) number kind form argument.now) result (drafted self.new) }
    {
        let call = call_of(heap, kind, form, argument)?;
        self.calls.push(Entry { line: number, call })?;
        Ok(())
    }
}

/// The text that a call's argument writes.
// A match, here and for the flag: a closure for each form would say the same two cases, and a keyword could not be compared.
fn text_of(heap: Global, form: Form, argument: &[u8]) -> Result<Vec<u8>, LineError>
    ensures as_its_form_says { TextRead form argument.now result }
{
    match form {
        Form::AsItStands => Ok(Vec::from_slice(heap, argument)?),
        Form::Hex(_) => read_pairs(heap, argument),
    }
}

/// The flag of a text that is written so.
fn flag_of(form: Form, bytes: &[u8]) -> bool
    ensures exact_unless_forced { result ≡ flag_of form bytes.now }
{
    match form {
        Form::Hex(Flag::Lone) => true,
        Form::Hex(Flag::Plain) => false,
        Form::Hex(Flag::Exact) | Form::AsItStands => holds_surrogate(bytes),
    }
}

/// The call that a line makes.
fn call_of(heap: Global, kind: CallKind, form: Form, argument: &[u8]) -> Result<Call, LineError>
    ensures kind_text_and_flag { CallRead kind form argument.now result }
{
    let bytes = text_of(heap, form, argument)?;
    let lone = flag_of(form, bytes.as_slice());
    Ok(Call { kind, bytes, lone })
}
