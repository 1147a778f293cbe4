//! String, piece, directive, pattern and name printing for C, on numbers and bytes. The header is include/jslit.h.
//!
//! Each function checks the bytes that it is given, for 1 to 5 in turn, and prints into the caller's bytes `out`: the printed
//! bytes stand at its front, and nothing beyond them is touched; a refusal touches nothing at all. The answer is the returned number
//! times 4,294,967,296, plus the place, the need or the printed length, else 0. A flag is set unless it is 0. Nothing is asked of
//! the caller but what C's types leave unsaid: that the bytes are there, and that `out` overlaps none that are read.
//!
//! `specs/Answers.antt` has the answer and what `out` holds then; `answer` packs an answer into one number.
#![tactic(auto)]

ghost use Rattle.std.specs.Prelude.{◌≡◌};
ghost use Rattle.text.specs.Answers.{text_answer};
ghost use Rattle.codegen.specs.Strings.{literal_bytes};
ghost use Rattle.codegen.specs.RawKinds.{check_of, printed_of};
ghost use Rattle.codegen.specs.declared.raw_kind.RawKind.TheVariants.{Directive, Pattern, Name};
ghost use Rattle.capi.specs.Answers.{is_set, options_of, piece_kind, answer_for, packed, out_after};

use answer::packed_answer;
use buffer::SliceBuffer;
use codegen::{CodegenOptions, RawKind, print_raw_bytes, print_string_bytes};

mod answer;

// Whether a flag is set: C passes a flag as a number.
fn is_set(flag: u32) -> bool
    ensures { result ≡ is_set flag }
{
    flag != 0
}

fn options_of(single_quote: u32, minify: u32, ascii_only: u32) -> CodegenOptions
    ensures { result ≡ options_of single_quote minify ascii_only }
{
    CodegenOptions {
        single_quote: is_set(single_quote),
        minify: is_set(minify),
        ascii_only: is_set(ascii_only),
    }
}

fn piece_kind(tagged: u32) -> RawKind
    ensures { result ≡ piece_kind tagged }
{
    if is_set(tagged) {
        RawKind::TaggedPiece
    } else {
        RawKind::Piece
    }
}

// Checks and prints raw text of a kind.
// `jslit_print_string` has the same three steps: a closure for the print between them would need clauses longer than both.
fn print_kind(kind: RawKind, options: CodegenOptions, raw: &[u8], out: &mut [u8]) -> u64
    ensures answers_for_its_kind { result ≡ packed (answer_for (check_of kind raw.now) out.old (printed_of kind options raw.now)) }
    ensures prints_at_the_front_or_touches_nothing { out.new ≡ out_after (check_of kind raw.now) out.old (printed_of kind options raw.now) }
{
    let mut code = SliceBuffer::new(out);
    let answer = print_raw_bytes(&mut code, options, kind, raw);
    packed_answer(answer.and(Ok(code.finish())))
}

// Five functions that differ in little, on numbers and bytes: the C interface.

/// Prints a text as a string literal.
#[unsafe(no_mangle)]
pub extern "C" fn jslit_print_string(
    text: &[u8],
    lone: u32,
    single_quote: u32,
    minify: u32,
    ascii_only: u32,
    allow_backtick: u32,
    out: &mut [u8],
) -> u64
    ensures answers_one_to_three_or_seven { result ≡ packed (answer_for (text_answer text.now (is_set lone)) out.old (literal_bytes (options_of single_quote minify ascii_only) (is_set allow_backtick) text.now)) }
    ensures prints_at_the_front_or_touches_nothing { out.new ≡ out_after (text_answer text.now (is_set lone)) out.old (literal_bytes (options_of single_quote minify ascii_only) (is_set allow_backtick) text.now) }
{
    let options = options_of(single_quote, minify, ascii_only);
    let mut code = SliceBuffer::new(out);
    let answer = print_string_bytes(
        &mut code,
        options,
        text,
        is_set(lone),
        is_set(allow_backtick),
    );
    packed_answer(answer.and(Ok(code.finish())))
}

/// Prints raw text as a piece of a template, tagged or not.
#[unsafe(no_mangle)]
pub extern "C" fn jslit_print_template_piece(
    raw: &[u8],
    tagged: u32,
    minify: u32,
    ascii_only: u32,
    out: &mut [u8],
) -> u64
    ensures answers_one_two_five_or_seven { result ≡ packed (answer_for (check_of (piece_kind tagged) raw.now) out.old (printed_of (piece_kind tagged) (options_of 0 minify ascii_only) raw.now)) }
    ensures prints_at_the_front_or_touches_nothing { out.new ≡ out_after (check_of (piece_kind tagged) raw.now) out.old (printed_of (piece_kind tagged) (options_of 0 minify ascii_only) raw.now) }
{
    print_kind(
        piece_kind(tagged),
        options_of(0, minify, ascii_only),
        raw,
        out,
    )
}

/// Prints the raw text of a directive.
#[unsafe(no_mangle)]
pub extern "C" fn jslit_print_directive(raw: &[u8], ascii_only: u32, out: &mut [u8]) -> u64
    ensures answers_one_two_or_seven { result ≡ packed (answer_for (check_of Directive raw.now) out.old (printed_of Directive (options_of 0 0 ascii_only) raw.now)) }
    ensures prints_at_the_front_or_touches_nothing { out.new ≡ out_after (check_of Directive raw.now) out.old (printed_of Directive (options_of 0 0 ascii_only) raw.now) }
{
    print_kind(RawKind::Directive, options_of(0, 0, ascii_only), raw, out)
}

/// Prints the pattern of a regular expression.
#[unsafe(no_mangle)]
pub extern "C" fn jslit_print_regex_pattern(raw: &[u8], ascii_only: u32, out: &mut [u8]) -> u64
    ensures answers_one_two_or_seven { result ≡ packed (answer_for (check_of Pattern raw.now) out.old (printed_of Pattern (options_of 0 0 ascii_only) raw.now)) }
    ensures prints_at_the_front_or_touches_nothing { out.new ≡ out_after (check_of Pattern raw.now) out.old (printed_of Pattern (options_of 0 0 ascii_only) raw.now) }
{
    print_kind(RawKind::Pattern, options_of(0, 0, ascii_only), raw, out)
}

/// Prints a name.
#[unsafe(no_mangle)]
pub extern "C" fn jslit_print_name(name: &[u8], ascii_only: u32, out: &mut [u8]) -> u64
    ensures answers_one_two_four_or_seven { result ≡ packed (answer_for (check_of Name name.now) out.old (printed_of Name (options_of 0 0 ascii_only) name.now)) }
    ensures prints_at_the_front_or_touches_nothing { out.new ≡ out_after (check_of Name name.now) out.old (printed_of Name (options_of 0 0 ascii_only) name.now) }
{
    print_kind(RawKind::Name, options_of(0, 0, ascii_only), name, out)
}
