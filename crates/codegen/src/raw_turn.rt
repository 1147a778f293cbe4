//! One turn of the raw printer: what raw text asks for at a place, and what is printed there.
ghost use Rattle.std.specs.Prelude.{◌≡◌, ◌≤◌, length};
ghost use Rattle.ecma262.specs.Units.{utf16};
ghost use Rattle.literal.specs.Raw.{wide, unit_escapes, wide_escape};
ghost use Rattle.buffer.specs.Printing.{Appends};
ghost use Rattle.codegen.specs.RawTurns.{raw_takes, raw_text, raw_size};
ghost use Rattle.codegen.specs.Room.{HasRoom};

use crate::escape_sequence::escape_size;
use crate::room::{print_escape, print_with_room};
use buffer::CodeBuffer;
use literal::{EscapeSequence, HexCase, NonAsciiEscape};

/// What is done at a place of raw text.
// A type of its own beside `Turn`: backslashes go and lines go on here, and a string's turn is right in some quotes only.
#[derive(Clone, Copy)]
pub enum RawTurn {
    /// This many bytes stand for themselves.
    Keep(usize),
    /// A backslash goes.
    Drop,
    /// This character, of so many bytes, becomes an escape.
    Escaped(u32, usize),
    /// A line end of so many bytes, behind a backslash that went, becomes a backslash and LF.
    LineEnd(usize),
    /// `</` before `script`: the slash is escaped.
    Tag,
}

impl RawTurn {
    /// How many bytes it takes.
    pub fn takes(self) -> usize
        ensures { result ≡ raw_takes self }
    {
        match self {
            RawTurn::Keep(n) | RawTurn::Escaped(_, n) | RawTurn::LineEnd(n) => n,
            RawTurn::Drop => 1,
            RawTurn::Tag => 2,
        }
    }

    /// How many bytes it prints.
    pub fn size(self, mode: NonAsciiEscape) -> usize
        ensures { result ≡ raw_size mode self }
    {
        match self {
            RawTurn::Keep(n) => n,
            RawTurn::Drop => 0,
            RawTurn::Escaped(c, _) => wide_size(mode, c),
            RawTurn::LineEnd(_) => 2,
            RawTurn::Tag => 3,
        }
    }

    /// Prints what it puts in the place of what it takes, for which there is room: nothing, where that is kept.
    pub fn print_to<B: CodeBuffer>(self, code: &mut B, mode: NonAsciiEscape)
        requires room { HasRoom B.CodeBuffer code.old (raw_text mode self) }
        ensures { Appends B.CodeBuffer code.old code.new (raw_text mode self) }
    {
        match self {
            RawTurn::Keep(_) | RawTurn::Drop => {}
            RawTurn::Escaped(c, _) => print_wide(code, mode, c),
            RawTurn::LineEnd(_) => print_with_room(code, b"\\\n"),
            RawTurn::Tag => print_with_room(code, b"<\\/"),
        }
    }
}

// An escape of one UTF-16 unit.
const UNIT: EscapeSequence = EscapeSequence::Unicode(HexCase::Upper);

// The escape of a character above U+007F, outside of regular expressions.
fn wide_sequence(c: u32) -> EscapeSequence
    ensures { result ≡ wide c }
{
    if c <= 0xFFFF {
        UNIT
    } else {
        EscapeSequence::CodePoint
    }
}

// How many bytes the escape of a character above U+007F has.
// The mode is passed down and matched, here as in printing: a closed set, of which one alone differs.
fn wide_size(mode: NonAsciiEscape, c: u32) -> usize
    ensures is { result ≡ length (wide_escape mode c) }
    ensures small { result ≤ 12 }
{
    match mode {
        NonAsciiEscape::RegExp => if c < 0x10000 { 6 } else { 12 }
        NonAsciiEscape::Identifier | NonAsciiEscape::TemplateRaw | NonAsciiEscape::Directive => {
            escape_size(c, wide_sequence(c))
        }
    }
}

// Prints the escape of a character above U+007F that there is room for.
fn print_wide<B: CodeBuffer>(code: &mut B, mode: NonAsciiEscape, c: u32)
    requires room { HasRoom B.CodeBuffer code.old (wide_escape mode c) }
    ensures { Appends B.CodeBuffer code.old code.new (wide_escape mode c) }
{
    match mode {
        NonAsciiEscape::RegExp => print_units(code, c),
        NonAsciiEscape::Identifier | NonAsciiEscape::TemplateRaw | NonAsciiEscape::Directive => {
            print_escape(code, c, wide_sequence(c))
        }
    }
}

// Prints the UTF-16 units of c, each as an escape, that there is room for.
fn print_units<B: CodeBuffer>(code: &mut B, c: u32)
    requires room { HasRoom B.CodeBuffer code.old (unit_escapes (utf16 c)) }
    ensures { Appends B.CodeBuffer code.old code.new (unit_escapes (utf16 c)) }
{
    if c < 0x10000 {
        print_escape(code, c, UNIT);
    } else {
        let rest = c - 0x10000;
        print_escape(code, 0xD800 + rest / 0x400, UNIT);
        print_escape(code, 0xDC00 + rest % 0x400, UNIT);
    }
}
