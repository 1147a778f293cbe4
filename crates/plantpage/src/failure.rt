//! What ends the program with status 1.
use job::{JobError, JobFault};
use std::{fmt, io};

/// Why the program did not do what it was asked for.
// It takes a job's two errors apart, to print them beside its own.
#[derive(Drop)]
pub enum Failure {
    /// A line of the job is none.
    Job(JobFault),
    /// There is no memory for the job.
    Memory,
    /// There are more arguments than a job and a page.
    TooManyWords,
    /// A file cannot be read.
    Unread { path: String, error: io::Error },
    /// A file cannot be written.
    Unwritten { path: String, error: io::Error },
    /// Standard input or output failed.
    Stream(io::Error),
}

impl From<JobError> for Failure {
    fn from(error: JobError) -> Failure {
        match error {
            JobError::Fault(fault) => Failure::Job(fault),
            JobError::Memory => Failure::Memory,
        }
    }
}

impl From<io::Error> for Failure {
    fn from(error: io::Error) -> Failure {
        Failure::Stream(error)
    }
}

impl fmt::Display for Failure {
    fn fmt<W: fmt::Write>(&self, f: &mut fmt::Formatter<W>) -> fmt::Result {
        match self {
            Failure::Job(fault) => write!(f, "{fault}"),
            Failure::Memory => f.write_str("no memory for the job"),
            Failure::TooManyWords => f.write_str(
                "expected at most a job and a page; see plantpage help",
            ),
            Failure::Unread { path, error } => write!(f, "cannot read {path}: {error}"),
            Failure::Unwritten { path, error } => write!(f, "cannot write {path}: {error}"),
            Failure::Stream(error) => write!(f, "{error}"),
        }
    }
}
