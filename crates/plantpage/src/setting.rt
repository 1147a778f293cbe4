//! Reads a job, sets its page and shows it.
ghost use Rattle.std.specs.Prelude.{◌≡◌};
ghost use Rattle.plantpage.specs.Quotas.{quota_of};

use crate::carrying::carry_out;
use crate::failure::Failure;
use crate::telling::Told;
use buffer::{CodeBuffer, LineWatch, OwnedBuffer, Quota};
use job::{Entry, Job, MAX_LIMIT, read_job};
use options::CodegenOptions;
use std::io::{Read, Write};
use std::{fs, io};

/// What stands above and below the page.
const RULE: &str = "----------------------------------------";

/// Sets the page of a job, tells of each call, shows the page, and writes it where a file is named.
pub fn set_page(
    rt: &HostRuntime,
    job: Option<String>,
    page: Option<String>,
) -> Result<(), Failure> {
    let text = match job {
        Some(path) => read_file(rt, path)?,
        None => read_input(rt)?,
    };
    let Job {
        options,
        limit,
        calls,
    } = read_job(rt.alloc(), text.as_slice())?;
    let below = LineWatch::new(OwnedBuffer::new());
    let mut code = Quota::new(below, quota_of(limit));
    let told = carry_out_all(rt, &mut code, options, calls);
    let watch = code.into_inner();
    let lines = watch.line_feeds();
    let owned = watch.into_inner();
    told?;
    show(rt, owned.as_bytes(), lines)?;
    match page {
        Some(path) => write_file(rt, path, owned.as_bytes()),
        None => Ok(()),
    }
}

/// Carries out the calls in order, and tells of each.
fn carry_out_all<B: CodeBuffer>(
    rt: &HostRuntime,
    code: &mut B,
    options: CodegenOptions,
    calls: Vec<Entry>,
) -> io::Result<()> {
    for Entry { line, call } in calls {
        let kind = call.kind;
        let answer = carry_out(code, options, call);
        let told = Told { line, kind, answer };
        println!(rt; "{told}")?;
    }
    Ok(())
}

/// Shows the page as it stands, between two rules.
fn show(rt: &HostRuntime, page: &[u8], lines: usize) -> io::Result<()> {
    let held = page.len();
    println!(rt; "page: {held} bytes, {lines} lines")?;
    println!(rt; "{RULE}")?;
    rt.stdout().write_all(page)?;
    println!(rt; "{RULE}")
}

/// The page's quota in bytes: the job's limit, else the greatest.
fn quota_of(limit: Option<usize>) -> usize
    ensures is_the_limit_else_the_greatest { result ≡ quota_of limit }
{
    limit.unwrap_or(MAX_LIMIT)
}

fn read_input(rt: &HostRuntime) -> Result<Vec<u8>, Failure> {
    let mut text = Vec::new(rt.alloc());
    rt.stdin().read_to_end(&mut text)?;
    Ok(text)
}

fn read_file(rt: &HostRuntime, path: String) -> Result<Vec<u8>, Failure> {
    fs::read(rt, path.as_str()).map_err(|error| Failure::Unread { path, error })
}

/// Writes the page to the file, and tells of it.
fn write_file(rt: &HostRuntime, path: String, page: &[u8]) -> Result<(), Failure> {
    // No `map_err`: its closure would own the path, which is told below.
    if let Err(error) = fs::write(rt, path.as_str(), page) {
        return Err(Failure::Unwritten { path, error });
    }
    let held = page.len();
    Ok(println!(rt; "written: {held} bytes to {path}")?)
}
