//! The printing of raw text: template pieces, directives, patterns of regular expressions, and names.
ghost use Rattle.std.specs.Prelude.{◌≡◌, ◌≤◌, length};
ghost use Rattle.buffer.specs.Printing.{Prints};
ghost use Rattle.codegen.specs.Checked.{PrintsChecked};
ghost use Rattle.codegen.specs.RawKinds.{check_of, printed_of};
ghost use Rattle.codegen.specs.RawTexts.{piece_bytes, tagged_bytes, directive_bytes, regex_bytes, name_bytes};
ghost use Rattle.codegen.specs.RawLaws.{Tagless, Ascii, PieceValueKept, TaggedValueKept, DirectiveValueKept, PatternKept, NameReadBack};

use crate::fault::PrintFault;
use crate::raw_kind::{RawKind, check_kind};
use crate::raw_print::RawCode;
use crate::whole::{Printable, print_whole};
use buffer::{BufferFault, CodeBuffer};
use options::CodegenOptions;
use text::{Name, RawText, TemplateText};

// One line each over a `RawCode`. The prints are the ported crate's and have promises of their own; a size is told for each that items of a page need.

/// How many bytes `print_template_quasi_raw` prints.
#[tactic(auto, using(crate::proofs::RawKept::kind_fits, crate::proofs::RawKept::kind_bound))]
pub fn piece_size(options: CodegenOptions, raw: &TemplateText) -> usize
    ensures is_the_pieces_length { result ≡ length (piece_bytes options.minify options.ascii_only raw.now.bytes.items) }
    ensures is_at_most_49152 { result ≤ 49152 }
{
    RawCode::new(RawKind::Piece, options, raw.as_bytes()).size()
}

/// How many bytes `print_name` prints.
pub fn name_size(options: CodegenOptions, name: &Name) -> usize
    ensures is_the_names_length { result ≡ length (name_bytes options.ascii_only name.now.bytes.items) }
    ensures is_at_most_384 { result ≤ 384 }
{
    RawCode::new(RawKind::Name, options, name.as_bytes()).size()
}

/// Prints template text as a piece of an untagged template, whole or not at all.
#[tactic(auto, using(crate::proofs::RawKept::piece_value, crate::proofs::RawKept::piece_no_tag, crate::proofs::RawKept::piece_ascii))]
pub fn print_template_quasi_raw<B: CodeBuffer>(
    code: &mut B,
    options: CodegenOptions,
    raw: &TemplateText,
) -> Result<(), BufferFault>
    ensures prints_the_piece_whole_or_not_at_all { Prints B.CodeBuffer code.old code.new (piece_bytes options.minify options.ascii_only raw.now.bytes.items) result }
    ensures it_keeps_its_value { PieceValueKept options.minify options.ascii_only raw.now.bytes.items }
    ensures it_never_closes_a_script { Tagless (piece_bytes options.minify options.ascii_only raw.now.bytes.items) }
    ensures it_is_ascii_under_ascii_only { Ascii options.ascii_only (piece_bytes options.minify options.ascii_only raw.now.bytes.items) }
{
    print_whole(&RawCode::new(RawKind::Piece, options, raw.as_bytes()), code)
}

/// Prints raw text as a piece of a tagged template, whole or not at all: only `</script` is broken.
#[tactic(auto, using(crate::proofs::RawKept::tagged_no_tag, crate::proofs::RawKept::tagged_value))]
pub fn print_tagged_quasi_raw<B: CodeBuffer>(code: &mut B, raw: &RawText) -> Result<(), BufferFault>
    ensures prints_the_piece_whole_or_not_at_all { Prints B.CodeBuffer code.old code.new (tagged_bytes raw.now.bytes.items) result }
    ensures it_never_closes_a_script { Tagless (tagged_bytes raw.now.bytes.items) }
    ensures it_keeps_its_value { TaggedValueKept raw.now.bytes.items }
{
    let options = CodegenOptions::NONE;
    print_whole(
        &RawCode::new(RawKind::TaggedPiece, options, raw.as_bytes()),
        code,
    )
}

/// Prints the raw text of a directive, whole or not at all.
#[tactic(auto, using(crate::proofs::RawKept::directive_ascii, crate::proofs::RawKept::directive_value))]
pub fn print_directive_raw<B: CodeBuffer>(
    code: &mut B,
    options: CodegenOptions,
    raw: &RawText,
) -> Result<(), BufferFault>
    ensures prints_the_directive_whole_or_not_at_all { Prints B.CodeBuffer code.old code.new (directive_bytes options.ascii_only raw.now.bytes.items) result }
    ensures it_is_ascii_under_ascii_only { Ascii options.ascii_only (directive_bytes options.ascii_only raw.now.bytes.items) }
    ensures it_keeps_its_value { DirectiveValueKept options.ascii_only raw.now.bytes.items }
{
    print_whole(
        &RawCode::new(RawKind::Directive, options, raw.as_bytes()),
        code,
    )
}

/// Prints the pattern of a regular expression, whole or not at all.
#[tactic(auto, using(crate::proofs::RawKept::regex_ascii, crate::proofs::RawKept::pattern_kept))]
pub fn print_regex_pattern<B: CodeBuffer>(
    code: &mut B,
    options: CodegenOptions,
    pattern: &RawText,
) -> Result<(), BufferFault>
    ensures prints_the_pattern_whole_or_not_at_all { Prints B.CodeBuffer code.old code.new (regex_bytes options.ascii_only pattern.now.bytes.items) result }
    ensures it_is_ascii_under_ascii_only { Ascii options.ascii_only (regex_bytes options.ascii_only pattern.now.bytes.items) }
    ensures it_keeps_its_tokens { PatternKept options.ascii_only pattern.now.bytes.items }
{
    print_whole(
        &RawCode::new(RawKind::Pattern, options, pattern.as_bytes()),
        code,
    )
}

/// Prints a name, whole or not at all.
#[tactic(auto, using(crate::proofs::RawKept::name_ascii, crate::proofs::RawKept::name_back))]
pub fn print_name<B: CodeBuffer>(
    code: &mut B,
    options: CodegenOptions,
    name: &Name,
) -> Result<(), BufferFault>
    ensures prints_the_name_whole_or_not_at_all { Prints B.CodeBuffer code.old code.new (name_bytes options.ascii_only name.now.bytes.items) result }
    ensures it_is_ascii_under_ascii_only { Ascii options.ascii_only (name_bytes options.ascii_only name.now.bytes.items) }
    ensures it_is_read_back_as_the_name { NameReadBack options.ascii_only name.now.bytes.items }
{
    print_whole(&RawCode::new(RawKind::Name, options, name.as_bytes()), code)
}

// Beside `print_string_bytes`: the two differ in what is checked and by which arguments; the rest is shared.
/// Checks lent bytes, and prints them where they are raw text of this kind, whole or not at all.
pub fn print_raw_bytes<B: CodeBuffer>(
    code: &mut B,
    options: CodegenOptions,
    kind: RawKind,
    bytes: &[u8],
) -> Result<(), PrintFault>
    ensures prints_raw_text_of_its_kind_or_nothing { PrintsChecked B.CodeBuffer code.old code.new (check_of kind bytes.now) (printed_of kind options bytes.now) result }
{
    check_kind(kind, bytes)?;
    print_whole(&RawCode::new(kind, options, bytes), code)?;
    Ok(())
}
