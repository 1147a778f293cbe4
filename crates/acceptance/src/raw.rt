//! Raw text and names, printed.
use buffer::{CodeBuffer, SliceBuffer};
use codegen::{
    CodegenOptions, print_directive_raw, print_name, print_regex_pattern, print_tagged_quasi_raw,
};
use refusal::Refusal;
use std::test::Fail;
use text::{Name, RawText};

/// What raw text is printed as.
#[derive(Clone, Copy)]
enum Kind {
    Tagged,
    Directive,
    Pattern,
}

fn ascii(ascii_only: bool) -> CodegenOptions {
    CodegenOptions {
        single_quote: false,
        minify: false,
        ascii_only,
    }
}

/// Prints raw text at the front of `out`, in ASCII: how many bytes it became, or the need.
fn print_in(out: &mut [u8], kind: Kind, raw: &RawText) -> Result<usize, usize> {
    let mut code = SliceBuffer::new(out);
    let answer = match kind {
        Kind::Tagged => print_tagged_quasi_raw(&mut code, raw),
        Kind::Directive => print_directive_raw(&mut code, ascii(true), raw),
        Kind::Pattern => print_regex_pattern(&mut code, ascii(true), raw),
    };
    let held = code.finish();
    match answer {
        Ok(()) => Ok(held),
        Err(fault) => Err(Refusal::from(fault).amount()),
    }
}

#[test]
fn raw_text_is_printed(rt: HostRuntime) -> Result<(), Fail> {
    let heap = rt.alloc();
    let table: [(&[u8], Kind, &[u8]); 9] = [
        (b"", Kind::Pattern, b""),
        (b"\\\xC3\xA9", Kind::Pattern, b"\\u00E9"),
        (b"\xF0\x9F\x98\x80", Kind::Pattern, b"\\uD83D\\uDE00"),
        (b"\\\xE2\x80\xA8", Kind::Pattern, b"\\u2028"),
        (b"\\\xE2\x80\xA8", Kind::Directive, b"\\\n"),
        (b"\\\\\xE2\x80\xA8", Kind::Directive, b"\\\\\\u2028"),
        (b"\xF0\x9F\x98\x80", Kind::Directive, b"\\u{1F600}"),
        (b"</ScripT>", Kind::Tagged, b"<\\/ScripT>"),
        (b"\\$\xC3\xA9", Kind::Tagged, b"\\$\xC3\xA9"),
    ];
    for (bytes, kind, expected) in table {
        let raw = RawText::new(Vec::from_slice(heap, bytes)?)?;
        let mut out = [b'.'; 40];
        assert_eq!(rt; print_in(&mut out, kind, &raw), Ok(expected.len()));
        assert!(rt; out.starts_with(expected));
    }
    Ok(())
}

#[test]
fn names_are_printed(rt: HostRuntime) -> Result<(), Fail> {
    let table: [(bool, &[u8]); 2] = [(false, b"a\xF0\x9F\x98\x80"), (true, b"a\\u{1F600}")];
    let name = Name::new(Vec::from_slice(rt.alloc(), b"a\xF0\x9F\x98\x80")?)?;
    for (ascii_only, expected) in table {
        let mut out = [b'.'; 40];
        let mut code = SliceBuffer::new(&mut out);
        assert!(rt; print_name(&mut code, ascii(ascii_only), &name).is_ok());
        assert_eq!(rt; code.finish(), expected.len());
        assert!(rt; out.starts_with(expected));
    }
    Ok(())
}

#[test]
fn raw_text_one_byte_too_long_touches_nothing(rt: HostRuntime) -> Result<(), Fail> {
    let raw = RawText::new(Vec::from_slice(rt.alloc(), b"\xF0\x9F\x98\x80")?)?;
    let mut out = [b'.'; 11];
    assert_eq!(rt; print_in(&mut out, Kind::Pattern, &raw), Err(12));
    assert_eq!(rt; out, *b"...........");
    Ok(())
}
