//! Jobs: the text that a plant engineer writes, read into the calls that it asks for.
//!
//! A job is lines, each ended by a line feed (the last may lack it). A line is blank, a comment, one of the settings
//! `options` and `limit`, or a call with its text. To read the crate: `calls` has what a job comes to, `faults` what is said
//! of a line that is none of these, `bytes` cuts lines and words, `words` knows the keywords, `hex` reads bytes that are
//! written in hex, `surrogates` finds the flag that is exact for a text, `settings` reads what stands behind `options` and
//! `limit`, and `reading` puts them together: `read_job`.
//!
//! No function here prints or reads a file. `read_job` answers what `specs/Jobs.antt` says a text is: the job, or its first
//! line that is none of a job's with what was expected there; only want of memory is left open, and only for a job with a
//! call. What each line adds is defined there from the smaller definitions: `Lines`, `WordsLeft`, `Words`, `Hex`, `Settings` and `Calls`;
//! the exact flag of a text is crate `text`'s.
#![tactic(auto)]

mod bytes;
mod calls;
mod faults;
mod hex;
mod reading;
mod settings;
mod surrogates;
mod words;

pub use calls::{Call, CallKind, Entry, Job};
pub use faults::{Expected, JobError, JobFault, Unread};
pub use hex::{hex_pair, hex_value};
pub use options::CodegenOptions;
pub use reading::read_job;
pub use settings::MAX_LIMIT;
pub use surrogates::holds_surrogate;
