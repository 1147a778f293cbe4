//! The literal of a text as a whole.
ghost use Rattle.std.specs.Prelude.{◌≡◌, ◌+◌, ◌≤◌, true, ◌++◌, length};
ghost use Rattle.std.proofs.Props.{props};
ghost use Rattle.ecma262.specs.declared.Quote.TheVariants.{Backtick};
ghost use Rattle.text.specs.Answers.{text_answer};
ghost use Rattle.buffer.specs.Printing.{Appends};
ghost use Rattle.codegen.specs.Strings.{quote_asked, settled, opening, opened, quoted, literal_in};
ghost use Rattle.codegen.specs.Turns.{Fit, body};
ghost use Rattle.codegen.specs.Room.{HasRoom};

use crate::costs::choose_quote;
use crate::escape::EscapeTable;
use crate::room::print_with_room;
use crate::state::PrintStringState;
use crate::turn::Escaping;
use crate::whole::Printable;
use buffer::CodeBuffer;
use ecma262::Quote;
use options::CodegenOptions;

/// How texts are written as literals.
#[derive(Clone, Copy)]
pub struct StringStyle {
    /// The quote, unless the text is to choose it.
    pub quote: Option<Quote>,
    /// Whether the text may choose the backtick.
    pub allow_backtick: bool,
    pub ascii_only: bool,
}

impl StringStyle {
    /// Without minify the quote is the one that the options ask for; under minify the text decides.
    pub fn asked(options: CodegenOptions, allow_backtick: bool) -> StringStyle
        ensures { result ≡ record { quote = quote_asked options; allow_backtick = allow_backtick; ascii_only = options.ascii_only } }
    {
        let quote = if options.minify {
            None
        } else if options.single_quote {
            Some(Quote::Single)
        } else {
            Some(Quote::Double)
        };
        StringStyle {
            quote,
            allow_backtick,
            ascii_only: options.ascii_only,
        }
    }

    /// In backticks.
    pub fn template(options: CodegenOptions) -> StringStyle
        ensures { result ≡ record { quote = Some Backtick; allow_backtick = true; ascii_only = options.ascii_only } }
    {
        StringStyle {
            quote: Some(Quote::Backtick),
            allow_backtick: true,
            ascii_only: options.ascii_only,
        }
    }
}

/// The bytes of a text with its flag, which stand side by side in the format.
#[derive(Clone, Copy)]
pub struct TextBytes<'t> {
    pub bytes: &'t [u8],
    pub lone: bool,
    ghost checked: { (text_answer bytes.now lone).number ≡ 0 },
}

/// The literal of a text.
#[derive(Clone, Copy)]
pub struct Literal<'t> {
    pub escaping: Escaping<'t>,
    pub quote: Option<Quote>,
    pub allow_backtick: bool,
    pub bytes: &'t [u8],
    ghost fit: { Fit escaping.lone bytes.now } by { Prim.hlevel props },
    ghost small: { length bytes.now ≤ 16384 },
}

impl<'t> Literal<'t> {
    /// The literal of a text, by the table that was made for its style and flag.
    pub fn new(table: &'t EscapeTable, style: StringStyle, text: TextBytes<'t>) -> Literal<'t>
        requires for_the_style { table.now.ascii_only ≡ style.ascii_only }
        requires for_the_text { table.now.lone ≡ text.lone }
        ensures { ⟦<Literal<'t> as Printable>⟧.code result ≡ literal_in style text.entry.bytes.now }
    {
        Literal {
            escaping: Escaping::new(table),
            quote: style.quote,
            allow_backtick: style.allow_backtick,
            bytes: text.bytes,
        }
    }

    // The quote, chosen by the text where it is not known: for measuring; the cursor prints it too, where it needs it first.
    fn settled_quote(&self) -> Quote
        ensures { result ≡ settled self.now.quote self.now.allow_backtick self.now.bytes.now }
    {
        // A match, since the closure of an unwrap_or_else would need clauses of its own.
        match self.quote {
            Some(q) => q,
            None => choose_quote(self.bytes, self.allow_backtick),
        }
    }

    // How many bytes the text becomes between quotes q.
    fn body_size(&self, q: Quote) -> usize
        ensures is { result ≡ length (body q self.now.escaping.ascii_only self.now.bytes.now) }
        ensures small { result ≤ 65536 }
    {
        // By place: an iterator over turns would serve here alone, since the printer's cursor settles the quote on the way.
        let mut size = 0;
        let mut at = 0;
        while at < self.bytes.len() {
            let turn = self.escaping.next_turn(q, self.bytes, at);
            size += turn.size();
            at += turn.takes();
        }
        size
    }

    // Prints the opening quote where it is known.
    fn print_opening<B: CodeBuffer>(&self, code: &mut B)
        requires room { HasRoom B.CodeBuffer code.old (opened self.now.quote) }
        ensures appends { Appends B.CodeBuffer code.old code.new (opened self.now.quote) }
    {
        if let Some(q) = self.quote {
            print_with_room(code, &[q.mark()]);
        }
    }

    // Prints what the text becomes between the quotes, and before it the opening quote where that is still to be chosen; answers the quote.
    fn print_body<B: CodeBuffer>(&self, code: &mut B) -> Quote
        requires room { let q = settled self.now.quote self.now.allow_backtick self.now.bytes.now in HasRoom B.CodeBuffer code.old (opening self.now.quote q ++ body q self.now.escaping.ascii_only self.now.bytes.now) }
        ensures answers { result ≡ settled self.now.quote self.now.allow_backtick self.now.bytes.now }
        ensures appends { let q = settled self.now.quote self.now.allow_backtick self.now.bytes.now in Appends B.CodeBuffer code.old code.new (opening self.now.quote q ++ body q self.now.escaping.ascii_only self.now.bytes.now) }
    {
        let mut state = PrintStringState {
            literal: self,
            chunk_start: 0,
            at: 0,
            quote: self.quote,
        };
        // By the cursor, as in the ported crate; no iterator, since a step may settle the quote, which needs the buffer.
        while state.at < self.bytes.len() {
            state.advance(code);
        }
        state.flush(code);
        // It is settled here.
        state.quote.unwrap_or(Quote::Double)
    }
}

impl<'t> Printable for Literal<'t> {
    ghost code = { λ l. quoted (settled l.quote l.allow_backtick l.bytes.now) l.escaping.ascii_only l.bytes.now };

    fn size_bound(&self) -> usize {
        4 * self.bytes.len() + 2
    }

    fn size(&self) -> usize
        ensures is_its_length { result ≡ length (quoted (settled self.now.quote self.now.allow_backtick self.now.bytes.now) self.now.escaping.ascii_only self.now.bytes.now) }
        ensures is_at_most_65538 { result ≤ 65538 }
    {
        self.body_size(self.settled_quote()) + 2
    }

    fn print_to<B: CodeBuffer>(&self, out: &mut B) {
        self.print_opening(out);
        let q = self.print_body(out);
        print_with_room(out, &[q.mark()]);
    }
}
