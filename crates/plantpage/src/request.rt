//! What the arguments ask for.
use crate::failure::Failure;
use std::env;

/// What the program is to do.
#[derive(Drop)]
pub enum Request {
    /// Say how it is used.
    Help,
    /// Set the page of the job in a file, else on standard input, and write it to a file where one is named.
    Set {
        job: Option<String>,
        page: Option<String>,
    },
}

/// What the program's arguments ask for.
pub fn request_of(rt: &HostRuntime) -> Result<Request, Failure> {
    let mut words = env::args(rt)?.skip(1);
    let job = words.next();
    let page = words.next();
    if words.next().is_some() {
        return Err(Failure::TooManyWords);
    }
    Ok(match (&job, &page) {
        (Some(word), None) if word.as_str() == "help" => Request::Help,
        _ => Request::Set { job, page },
    })
}
