//! Examples of jobs: one line of a table each.
use job::{CallKind, Expected, JobError, JobFault, holds_surrogate, read_job};
use options::CodegenOptions;
use std::alloc::Global;
use std::process::Abort;
use std::test::Fail;

const SINGLE: CodegenOptions = CodegenOptions {
    single_quote: true,
    ..CodegenOptions::NONE
};

const ALL: CodegenOptions = CodegenOptions {
    single_quote: true,
    minify: true,
    ascii_only: true,
};

/// The job has one call, of this kind, text and flag.
fn sets(
    rt: &impl Abort,
    heap: Global,
    text: &[u8],
    kind: CallKind,
    bytes: &[u8],
    lone: bool,
) -> Result<(), Fail> {
    let job = read_job(heap, text)?;
    let [entry] = job.calls.as_slice() else {
        return Err(Fail::new("not one call"));
    };
    assert_eq!(rt; entry.line, 1);
    assert_eq!(rt; entry.call.kind, kind);
    assert!(rt; entry.call.bytes.as_slice() == bytes);
    assert_eq!(rt; entry.call.lone, lone);
    Ok(())
}

/// The job has these settings and this many calls.
fn settles(
    rt: &impl Abort,
    heap: Global,
    text: &[u8],
    options: CodegenOptions,
    limit: Option<usize>,
    calls: usize,
) -> Result<(), Fail> {
    let job = read_job(heap, text)?;
    assert_eq!(rt; job.options, options);
    assert_eq!(rt; job.limit, limit);
    assert_eq!(rt; job.calls.len(), calls);
    Ok(())
}

/// The job is refused at this line.
fn refuses(
    rt: &impl Abort,
    heap: Global,
    text: &[u8],
    line: usize,
    expected: Expected,
) -> Result<(), Fail> {
    match read_job(heap, text) {
        Ok(_) => Err(Fail::new("not refused")),
        Err(error) => {
            assert_eq!(rt; error, JobError::Fault(JobFault { line, expected }));
            Ok(())
        },
    }
}

#[test]
fn texts_as_they_stand(rt: HostRuntime) -> Result<(), Fail> {
    let table: [(&[u8], CallKind, &[u8], bool); 10] = [
        (b"string Silo 4", CallKind::Quoted, b"Silo 4", false),
        (b"string Silo 4\n", CallKind::Quoted, b"Silo 4", false),
        (
            b"string  two blanks ",
            CallKind::Quoted,
            b" two blanks ",
            false,
        ),
        (
            b"string\tafter a tab",
            CallKind::Quoted,
            b"after a tab",
            false,
        ),
        (b"string", CallKind::Quoted, b"", false),
        (b"string ", CallKind::Quoted, b"", false),
        (
            b"string #no comment\r\n",
            CallKind::Quoted,
            b"#no comment\r",
            false,
        ),
        (b"string-bt `", CallKind::QuotedOrBacktick, b"`", false),
        (b"as-template ${x}", CallKind::Template, b"${x}", false),
        (
            b"string \xED\xA0\x80",
            CallKind::Quoted,
            b"\xED\xA0\x80",
            true,
        ),
    ];
    for (text, kind, bytes, lone) in table {
        sets(&rt, rt.alloc(), text, kind, bytes, lone)?;
    }
    Ok(())
}

#[test]
fn texts_in_hex(rt: HostRuntime) -> Result<(), Fail> {
    let table: [(&[u8], CallKind, &[u8], bool); 7] = [
        (b"string:hex 61 0A", CallKind::Quoted, b"a\n", false),
        (b"string:hex 610a fF", CallKind::Quoted, b"a\n\xFF", false),
        (b"string:hex  \t61 ", CallKind::Quoted, b"a", false),
        (b"string-bt:hex", CallKind::QuotedOrBacktick, b"", false),
        (
            b"as-template:hex ED A0 80",
            CallKind::Template,
            b"\xED\xA0\x80",
            true,
        ),
        (
            b"string:hex:plain EDA080",
            CallKind::Quoted,
            b"\xED\xA0\x80",
            false,
        ),
        (b"string:hex:lone 61", CallKind::Quoted, b"a", true),
    ];
    for (text, kind, bytes, lone) in table {
        sets(&rt, rt.alloc(), text, kind, bytes, lone)?;
    }
    Ok(())
}

#[test]
fn settings(rt: HostRuntime) -> Result<(), Fail> {
    let table: [(&[u8], CodegenOptions, Option<usize>, usize); 5] = [
        (b"", CodegenOptions::NONE, None, 0),
        (b"\n  # none\n\t\n#", CodegenOptions::NONE, None, 0),
        (b"options\nlimit 0", CodegenOptions::NONE, Some(0), 0),
        (
            b"limit  0065536 \noptions single_quote\nstring a\nstring b",
            SINGLE,
            Some(65536),
            2,
        ),
        (b"options ascii_only  single_quote\tminify ", ALL, None, 0),
    ];
    for (text, options, limit, calls) in table {
        settles(&rt, rt.alloc(), text, options, limit, calls)?;
    }
    Ok(())
}

#[test]
fn lines_of_no_job(rt: HostRuntime) -> Result<(), Fail> {
    let table: [(&[u8], usize, Expected); 9] = [
        (b"strings a", 1, Expected::Keyword),
        (b"\n\n string a", 3, Expected::Keyword),
        (b"string: a", 1, Expected::Keyword),
        (b"string:hex:long 61", 1, Expected::Keyword),
        (b"options:hex", 1, Expected::Keyword),
        (b"\r\n", 1, Expected::Keyword),
        (b"string:hex 6", 1, Expected::HexPairs),
        (b"string:hex 6 1", 1, Expected::HexPairs),
        (b"string a\nstring:hex 61 0G", 2, Expected::HexPairs),
    ];
    for (text, line, expected) in table {
        refuses(&rt, rt.alloc(), text, line, expected)?;
    }
    Ok(())
}

#[test]
fn settings_of_no_job(rt: HostRuntime) -> Result<(), Fail> {
    let table: [(&[u8], usize, Expected); 11] = [
        (b"options single", 1, Expected::OptionName),
        (b"options minify minify", 1, Expected::OptionOnce),
        (b"options minify\n#\noptions", 3, Expected::OptionsOnce),
        (b"string a\noptions", 2, Expected::OptionsFirst),
        (b"limit", 1, Expected::LimitNumber),
        (b"limit 65537", 1, Expected::LimitNumber),
        (b"limit 99999999999999999999999", 1, Expected::LimitNumber),
        (b"limit -1", 1, Expected::LimitNumber),
        (b"limit 1 2", 1, Expected::LimitNumber),
        (b"limit 1\nlimit 1", 2, Expected::LimitOnce),
        (b"string a\nlimit 1", 2, Expected::LimitFirst),
    ];
    for (text, line, expected) in table {
        refuses(&rt, rt.alloc(), text, line, expected)?;
    }
    Ok(())
}

#[test]
fn surrogates(rt: HostRuntime) {
    assert!(rt; holds_surrogate(b"a\xED\xA0"));
    assert!(rt; holds_surrogate(b"\xED\xED\xBF"));
    assert!(rt; !holds_surrogate(b"\xED"));
    assert!(rt; !holds_surrogate(b"\xED\x9F\xBF"));
    assert!(rt; !holds_surrogate(b"\xED\xC0"));
    assert!(rt; !holds_surrogate(b"\xA0\xED"));
}

#[test]
fn faults_are_told_with_their_line(rt: HostRuntime) -> Result<(), Fail> {
    let fault = JobFault {
        line: 7,
        expected: Expected::HexPairs,
    };
    let told = format!(in rt.alloc(); "{fault}")?;
    assert_eq!(rt; told.as_str(), "line 7: expected pairs of hex digits");
    Ok(())
}
