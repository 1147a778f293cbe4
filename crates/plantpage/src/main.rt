//! `plantpage` sets the texts of a job on a page, as JavaScript string literals.
//!
//! It reads the whole job first (crate `job`), then carries out its calls in order over a code buffer, prints a line for each, and
//! shows the page. To read the program: `request` says what the arguments ask for, `setting` reads a job and sets its page,
//! `carrying` carries out one call, `items` prints an item, `telling` writes the line that tells of it, `failure` has what ends the program with
//! status 1, and `usage` is the text of `plantpage help`.
#![tactic(auto)]

mod carrying;
mod failure;
mod items;
mod request;
mod setting;
mod telling;
mod usage;

use failure::Failure;
use request::{Request, request_of};
use setting::set_page;
use std::process::ExitCode;
use usage::USAGE;

fn main(rt: HostRuntime) -> ExitCode {
    match run(&rt) {
        Ok(()) => ExitCode::SUCCESS,
        Err(failure) => {
            let _ = eprintln!(rt; "plantpage: {failure}");
            ExitCode::FAILURE
        }
    }
}

fn run(rt: &HostRuntime) -> Result<(), Failure> {
    match request_of(rt)? {
        Request::Help => Ok(print!(rt; "{USAGE}")?),
        Request::Set { job, page } => set_page(rt, job, page),
    }
}
