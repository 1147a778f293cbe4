//! Items of the page: a literal, then a comma and a line feed, whole or not at all.
ghost use Rattle.std.specs.Prelude.{◌≡◌, ◌≤◌, length};
ghost use Rattle.buffer.specs.Printing.{Prints};
ghost use Rattle.plantpage.specs.Items.{literal_of, item_of};

use buffer::{BufferFault, CodeBuffer};
use codegen::{print_string, print_string_literal_as_template, string_size, template_size};
use job::CallKind;
use options::CodegenOptions;
use text::JSStr;

/// A text that is set on the page.
#[derive(Clone, Copy)]
pub struct Item<'a> {
    pub options: CodegenOptions,
    pub kind: CallKind,
    pub text: &'a JSStr,
}

impl<'a> Item<'a> {
    // Matched as in `print_literal`: codegen has a call for each size and one for each print, with promises of their own.
    fn literal_size(&self) -> usize
        ensures is { result ≡ length (literal_of self.now.options self.now.kind self.now.text.now.bytes.items) }
        ensures small { result ≤ 163842 }
    {
        match self.kind {
            CallKind::Quoted => string_size(self.options, self.text, false),
            CallKind::QuotedOrBacktick => string_size(self.options, self.text, true),
            CallKind::Template => template_size(self.options, self.text),
        }
    }

    fn print_literal<B: CodeBuffer>(&self, code: &mut B) -> Result<(), BufferFault>
        ensures prints { Prints B.CodeBuffer code.old code.new (literal_of self.now.options self.now.kind self.now.text.now.bytes.items) result }
    {
        match self.kind {
            CallKind::Quoted => print_string(code, self.options, self.text, false),
            CallKind::QuotedOrBacktick => print_string(code, self.options, self.text, true),
            CallKind::Template => print_string_literal_as_template(code, self.options, self.text),
        }
    }

    /// Prints the literal, a comma and a line feed.
    pub fn print<B: CodeBuffer>(&self, code: &mut B) -> Result<(), BufferFault>
        ensures prints_the_item_whole_or_not_at_all { Prints B.CodeBuffer code.old code.new (item_of self.now.options self.now.kind self.now.text.now.bytes.items) result }
    {
        // The room is tested here: what would do it in codegen asks for room, and nothing that is exported asks for anything.
        let need = code.held() + self.literal_size() + 2;
        if need > code.limit() {
            return Err(BufferFault::Full(need));
        }
        self.print_literal(code)?;
        code.print(b",\n")
    }
}
