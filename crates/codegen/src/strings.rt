//! The printing of texts as string literals.
ghost use Rattle.std.specs.Prelude.{◌≡◌, ◌≤◌, length};
ghost use Rattle.ecma262.specs.declared.Quote.TheVariants.{Backtick};
ghost use Rattle.buffer.specs.Printing.{Prints};
ghost use Rattle.text.specs.Answers.{text_answer};
ghost use Rattle.codegen.specs.Checked.{PrintsChecked};
ghost use Rattle.codegen.specs.Strings.{quoted, quote_of_text, literal_bytes, literal_in};
ghost use Rattle.codegen.specs.Laws.{InUtf8, ReadBack, ReadOnce, NoScriptEnd, AsciiIfAsked, ShortestUnderMinify};
ghost use Rattle.codegen.specs.Samples.{Samples};

use crate::escape::EscapeTable;
use crate::fault::PrintFault;
use crate::print::{Literal, StringStyle, TextBytes};
use crate::whole::{Printable, print_whole};
use buffer::{BufferFault, CodeBuffer};
use options::CodegenOptions;
use text::{JSStr, check_text};

fn bytes_of(text: &JSStr) -> TextBytes
    ensures { result.bytes.now ≡ text.now.bytes.items }
{
    TextBytes {
        bytes: text.as_bytes(),
        lone: text.has_lone_surrogate(),
    }
}

// How many bytes the literal of a text has.
fn text_size(style: StringStyle, text: TextBytes) -> usize
    ensures is { result ≡ length (literal_in style text.entry.bytes.now) }
    ensures small { result ≤ 65538 }
{
    let table = EscapeTable::new(style.ascii_only, text.lone);
    Literal::new(&table, style, text).size()
}

// Prints the literal of a text.
fn print_text<B: CodeBuffer>(
    code: &mut B,
    style: StringStyle,
    text: TextBytes,
) -> Result<(), BufferFault>
    ensures { Prints B.CodeBuffer code.old code.new (literal_in style text.entry.bytes.now) result }
{
    let table = EscapeTable::new(style.ascii_only, text.lone);
    print_whole(&Literal::new(&table, style, text), code)
}

// What the calls share is above. The prints are the ported crate's and have promises of their own; a size is told for each that items of a page need.

/// How many bytes `print_string` prints.
pub fn string_size(options: CodegenOptions, text: &JSStr, allow_backtick: bool) -> usize
    ensures is_the_literals_length { result ≡ length (literal_bytes options allow_backtick text.now.bytes.items) }
    ensures is_at_most_65538 { result ≤ 65538 }
{
    let style = StringStyle::asked(options, allow_backtick);
    text_size(style, bytes_of(text))
}

/// How many bytes `print_string_literal_as_template` prints.
pub fn template_size(options: CodegenOptions, text: &JSStr) -> usize
    ensures is_the_templates_length { result ≡ length (quoted Backtick options.ascii_only text.now.bytes.items) }
    ensures is_at_most_65538 { result ≤ 65538 }
{
    let template = StringStyle::template(options);
    text_size(template, bytes_of(text))
}

/// Prints a text as a string literal, whole or not at all.
///
/// Without minify the quotes are single under single_quote, else double. Under minify they are those that give the shortest
/// literal; backticks only where `allow_backtick` is set.
pub fn print_string<B: CodeBuffer>(
    code: &mut B,
    options: CodegenOptions,
    text: &JSStr,
    allow_backtick: bool,
) -> Result<(), BufferFault>
    ensures prints_the_literal_whole_or_not_at_all { Prints B.CodeBuffer code.old code.new (literal_bytes options allow_backtick text.now.bytes.items) result }
    ensures it_is_utf8 { InUtf8 (quote_of_text options allow_backtick text.now.bytes.items) options.ascii_only text.now.bytes.items }
    ensures it_is_read_back_as_the_text { ReadBack (quote_of_text options allow_backtick text.now.bytes.items) options.ascii_only text.now.bytes.items }
    ensures it_is_read_in_no_other_way { ReadOnce (quote_of_text options allow_backtick text.now.bytes.items) options.ascii_only text.now.bytes.items }
    ensures it_never_closes_a_script { NoScriptEnd (quote_of_text options allow_backtick text.now.bytes.items) options.ascii_only text.now.bytes.items }
    ensures it_is_ascii_under_ascii_only { AsciiIfAsked (quote_of_text options allow_backtick text.now.bytes.items) options.ascii_only text.now.bytes.items }
    ensures it_is_the_shortest_under_minify { ShortestUnderMinify options allow_backtick text.now.bytes.items }
{
    let style = StringStyle::asked(options, allow_backtick);
    print_text(code, style, bytes_of(text))
}

/// Prints a text as a template literal, whole or not at all, whatever it holds.
pub fn print_string_literal_as_template<B: CodeBuffer>(
    code: &mut B,
    options: CodegenOptions,
    text: &JSStr,
) -> Result<(), BufferFault>
    ensures prints_the_template_whole_or_not_at_all { Prints B.CodeBuffer code.old code.new (quoted Backtick options.ascii_only text.now.bytes.items) result }
    ensures it_is_utf8 { InUtf8 Backtick options.ascii_only text.now.bytes.items }
    ensures it_is_read_back_as_the_text { ReadBack Backtick options.ascii_only text.now.bytes.items }
    ensures it_is_read_in_no_other_way { ReadOnce Backtick options.ascii_only text.now.bytes.items }
    ensures it_never_closes_a_script { NoScriptEnd Backtick options.ascii_only text.now.bytes.items }
    ensures it_is_ascii_under_ascii_only { AsciiIfAsked Backtick options.ascii_only text.now.bytes.items }
{
    let template = StringStyle::template(options);
    print_text(code, template, bytes_of(text))
}

// Beside `print_raw_bytes`: the two differ in what is checked and by which arguments; the rest is shared.
/// Checks lent bytes with this flag, and prints them as a string literal where they are a text, whole or not at all.
pub fn print_string_bytes<B: CodeBuffer>(
    code: &mut B,
    options: CodegenOptions,
    bytes: &[u8],
    lone: bool,
    allow_backtick: bool,
) -> Result<(), PrintFault>
    ensures prints_the_literal_of_a_text_or_nothing { PrintsChecked B.CodeBuffer code.old code.new (text_answer bytes.now lone) (literal_bytes options allow_backtick bytes.now) result }
{
    check_text(bytes, lone)?;
    let style = StringStyle::asked(options, allow_backtick);
    print_text(code, style, TextBytes { bytes, lone })?;
    Ok(())
}

/// The worked examples hold of the definitions.
pub fn samples_hold()
    ensures all_samples_hold { Samples }
{}
