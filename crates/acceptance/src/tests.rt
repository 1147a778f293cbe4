//! The worked examples, the limits, and refusals that touch nothing.
use buffer::{BufferFault, CodeBuffer, SliceBuffer};
use codegen::{CodegenOptions, PrintFault, print_string, print_string_literal_as_template};
use refusal::Refusal;
use std::test::Fail;
use text::{JSStr, Name, RawText, TemplateText, TextFault, check_template_text};

const MAX_TEXT: usize = 16384;

/// How a text is printed.
#[derive(Clone, Copy)]
enum Style {
    Quoted,
    Minified,
    MinifiedOrBacktick,
    Ascii,
    Template,
}

/// The options of a style.
fn options_of(style: Style) -> CodegenOptions {
    let mut options = CodegenOptions {
        single_quote: false,
        minify: false,
        ascii_only: false,
    };
    match style {
        Style::Minified | Style::MinifiedOrBacktick => {
            options.minify = true;
        }
        Style::Ascii => {
            options.ascii_only = true;
        }
        Style::Quoted | Style::Template => {}
    }
    options
}

/// Prints a text at the front of `out`: how many bytes it became, or the need.
fn print_in(out: &mut [u8], style: Style, text: &JSStr) -> Result<usize, usize> {
    let options = options_of(style);
    let mut code = SliceBuffer::new(out);
    let allow_backtick = match style {
        Style::MinifiedOrBacktick => true,
        _ => false,
    };
    let answer = match style {
        Style::Template => print_string_literal_as_template(&mut code, options, text),
        _ => print_string(&mut code, options, text, allow_backtick),
    };
    let held = code.finish();
    match answer {
        Ok(()) => Ok(held),
        Err(fault) => Err(Refusal::from(fault).amount()),
    }
}

#[test]
fn examples_are_printed(rt: HostRuntime) -> Result<(), Fail> {
    let heap = rt.alloc();
    let table: [(&[u8], bool, Style, &[u8]); 16] = [
        (b"", false, Style::Quoted, b"\"\""),
        (b"", false, Style::MinifiedOrBacktick, b"``"),
        (b"\x001", false, Style::Quoted, b"\"\\x001\""),
        (b"\0a", false, Style::Quoted, b"\"\\0a\""),
        (b"\xED\xA0\x80", true, Style::Quoted, b"\"\\ud800\""),
        (b"\xED\xA0\x80", true, Style::Ascii, b"\"\\ud800\""),
        (b"\xF0\x9F\x98\x80", false, Style::Ascii, b"\"\\u{1F600}\""),
        (b"\xED\x9F\xBF", false, Style::Ascii, b"\"\\uD7FF\""),
        (b"</SCRIPT>", false, Style::Quoted, b"\"<\\/SCRIPT>\""),
        (b"${", false, Style::MinifiedOrBacktick, b"\"${\""),
        (b"\n${", false, Style::MinifiedOrBacktick, b"`\n\\${`"),
        (b"'\"", false, Style::Minified, b"\"'\\\"\""),
        (b"\"", false, Style::Minified, b"'\"'"),
        (
            b"\x07\x08\x0B\x0C\x0D\x1B\\",
            false,
            Style::Quoted,
            b"\"\\x07\\b\\v\\f\\r\\x1B\\\\\"",
        ),
        (
            b"\xC2\xA0\xE2\x80\xA8\xE2\x80\xA9",
            false,
            Style::Quoted,
            b"\"\\xA0\\u2028\\u2029\"",
        ),
        (b"a`\n'${b", false, Style::Template, b"`a\\`\n'\\${b`"),
    ];
    for (bytes, lone, style, expected) in table {
        let text = JSStr::new(Vec::from_slice(heap, bytes)?, lone)?;
        let mut out = [b'.'; 40];
        assert_eq!(rt; print_in(&mut out, style, &text), Ok(expected.len()));
        assert!(rt; out.starts_with(expected));
    }
    Ok(())
}

#[test]
fn texts_are_refused_by_number_and_place(rt: HostRuntime) -> Result<(), Fail> {
    let heap = rt.alloc();
    let table: [(&[u8], bool, u32, usize); 8] = [
        (b"\xED\xA0\x80", false, 3, 0),
        (b"a", true, 3, 0),
        (b"\xED\xA0\xBD\xED\xB8\x80", true, 2, 3),
        (b"\xED\xA0\xBD\xED\xB8\x80", false, 2, 3),
        (b"a\xFFb", false, 2, 1),
        (b"ab\xC0\x80", false, 2, 2),
        (b"\xF4\x90\x80\x80", false, 2, 0),
        (b"\xE2\x82", false, 2, 0),
    ];
    for (bytes, lone, number, place) in table {
        match JSStr::new(Vec::from_slice(heap, bytes)?, lone) {
            Ok(_) => return Err(Fail::new("made")),
            Err(fault) => {
                let refusal = Refusal::from(fault);
                assert_eq!(rt; (refusal.number, refusal.amount()), (number, place));
            }
        }
    }
    Ok(())
}

#[test]
fn names_are_refused_by_number_and_place(rt: HostRuntime) -> Result<(), Fail> {
    let heap = rt.alloc();
    let table: [(&[u8], u32, usize); 6] = [
        (b"", 4, 0),
        (b"1a", 4, 0),
        (b"a-b", 4, 1),
        (b"\xC3\xA9 ", 4, 2),
        (b"\xED\xA0\x80", 2, 0),
        (b"$_\xC3\xA99Z", 0, 0),
    ];
    for (bytes, number, place) in table {
        let answer = match Name::new(Vec::from_slice(heap, bytes)?) {
            Ok(_) => (0, 0),
            Err(fault) => {
                let refusal = Refusal::from(fault);
                (refusal.number, refusal.amount())
            }
        };
        assert_eq!(rt; answer, (number, place));
    }
    Ok(())
}

#[test]
fn refusals_are_told(rt: HostRuntime) -> Result<(), Fail> {
    let place = Refusal::from(TextFault::Malformed(3));
    let flag = Refusal::from(TextFault::Misflagged);
    let need = Refusal::from(PrintFault::Buffer(BufferFault::Full(120)));
    let told = format!(in rt.alloc(); "{place}; {flag}; {need}")?;
    assert_eq!(rt;
        told.as_str(),
        "2 text, place 3; 3 text; 7 buffer, need 120"
    );
    Ok(())
}

#[test]
fn template_text_is_refused_by_number_and_place(rt: HostRuntime) {
    let table: [(&[u8], u32, usize); 18] = [
        (b"", 0, 0),
        (b"a$b $ {\\`\\${\r\n", 0, 0),
        (b"\\\xE2\x80\xA8\\\r\n\\\xC3\xA9\\q\\0a", 0, 0),
        (b"\\x4f\\u00E9\\u{0000000010FFFF}", 0, 0),
        (b"\xC3\xA9`", 5, 2),
        (b"ab${", 5, 2),
        (b"\\\\`", 5, 2),
        (b"$\\", 5, 1),
        (b"\\1", 5, 0),
        (b"\\09", 5, 0),
        (b"\\x4", 5, 0),
        (b"\\x4g", 5, 0),
        (b"\\u00E\xC3\xA9", 5, 0),
        (b"\\u{}", 5, 0),
        (b"\\u{61", 5, 0),
        (b"\\u{110000}", 5, 0),
        (b"\\u{6g}", 5, 0),
        (b"`\xFF", 2, 1),
    ];
    for (bytes, number, place) in table {
        let answer = match check_template_text(bytes) {
            Ok(()) => (0, 0),
            Err(fault) => {
                let refusal = Refusal::from(fault);
                (refusal.number, refusal.amount())
            }
        };
        assert_eq!(rt; answer, (number, place));
    }
}

#[test]
fn limits_are_exact(rt: HostRuntime) -> Result<(), Fail> {
    let heap = rt.alloc();
    let long = JSStr::new(vec![in heap; b'a'; MAX_TEXT]?, false)?;
    assert_eq!(rt; long.as_bytes().len(), MAX_TEXT);
    assert!(rt; JSStr::new(vec![in heap; b'a'; MAX_TEXT + 1]?, false).is_err());
    assert!(rt; RawText::new(vec![in heap; b'a'; MAX_TEXT]?).is_ok());
    assert!(rt; RawText::new(vec![in heap; b'a'; MAX_TEXT + 1]?).is_err());
    assert!(rt; Name::new(vec![in heap; b'a'; 128]?).is_ok());
    assert!(rt; Name::new(vec![in heap; b'a'; 129]?).is_err());
    Ok(())
}

#[test]
fn limits_of_template_text_are_exact(rt: HostRuntime) -> Result<(), Fail> {
    let heap = rt.alloc();
    assert!(rt; TemplateText::new(vec![in heap; b'a'; MAX_TEXT]?).is_ok());
    assert!(rt; TemplateText::new(vec![in heap; b'a'; MAX_TEXT + 1]?).is_err());
    Ok(())
}

#[test]
fn a_literal_that_does_not_fit_touches_nothing(rt: HostRuntime) -> Result<(), Fail> {
    let heap = rt.alloc();
    let text = JSStr::new(Vec::from_slice(heap, b"a'\n")?, false)?;
    let mut full = [b'.'; 6];
    assert_eq!(rt; print_in(&mut full, Style::Quoted, &text), Ok(6));
    assert_eq!(rt; full, *b"\"a'\\n\"");
    let mut short = [b'.'; 5];
    assert_eq!(rt; print_in(&mut short, Style::Quoted, &text), Err(6));
    assert_eq!(rt; short, *b".....");
    Ok(())
}
