//! The string printer's cursor. The chunk between `chunk_start` and `at` is still to be flushed.
ghost use Rattle.std.specs.Prelude.{◌≡◌, ◌≤◌, length, drop};
ghost use Rattle.std.proofs.Props.{props};
ghost use Rattle.literal.specs.Escapes.{behind};
ghost use Rattle.buffer.specs.Printing.{Appends};
ghost use Rattle.codegen.specs.Turns.{Fit};
ghost use Rattle.codegen.specs.Room.{HasRoom};

use crate::costs::choose_quote;
use crate::print::Literal;
use crate::room::{print_escape, print_with_room};
use crate::turn::Turn;
use buffer::CodeBuffer;
use ecma262::Quote;
use literal::EscapeSequence;

/// A place in a literal that is being printed.
// Two places and no slices: the ported crate's cursor.
#[derive(Drop)]
pub struct PrintStringState<'s, 't> {
    pub literal: &'s Literal<'t>,
    pub chunk_start: usize,
    pub at: usize,
    /// The quote, once it is settled: the opening quote is then printed.
    pub quote: Option<Quote>,
    ghost order: { chunk_start ≤ at },
    ghost within: { at ≤ length literal.now.bytes.now },
    ghost fit: { Fit literal.now.escaping.lone (drop at literal.now.bytes.now) } by { Prim.hlevel props },
}

// A step asks for room, and for a byte at the cursor: both change from step to step, so no field can hold them.
impl<'s, 't> PrintStringState<'s, 't> {
    ghost use Rattle.std.specs.Prelude.{◌≡◌, ◌+◌, ◌<◌, ◌≤◌, [], ◌∷◌, ◌++◌, true, false, length};
    ghost use Rattle.literal.specs.Escapes.{behind};
    ghost use Rattle.buffer.specs.Printing.{Appends};
    ghost use Rattle.codegen.specs.declared.turn.Turn.TheVariants.{Escaped, Tag};
    ghost use Rattle.codegen.specs.Strings.{opening};
    ghost use Rattle.codegen.specs.Cursor.{quote_of, chunk, Room, GoesOn, quote_decides, Known, TurnedHere, Advanced};

    /// The quote; where it is not settled yet, chosen for the rest of the text, and the opening quote printed.
    pub fn calculate_quote<B: CodeBuffer>(&mut self, code: &mut B) -> Quote
        requires room { HasRoom B.CodeBuffer code.old (opening self.old.quote (quote_of self.old)) }
        ensures answers { result ≡ quote_of self.old }
        ensures settles { GoesOn self.old.chunk_start self.old.at self.old self.new }
        ensures appends { Appends B.CodeBuffer code.old code.new (opening self.old.quote (quote_of self.old)) }
    {
        match self.quote {
            Some(q) => q,
            None => {
                let q = choose_quote(&self.literal.bytes[self.at..], self.literal.allow_backtick);
                print_with_room(code, &[q.mark()]);
                self.quote = Some(q);
                q
            }
        }
    }

    /// Prints the opening quote, where it is not printed yet, and the chunk up to the cursor.
    pub fn flush<B: CodeBuffer>(&mut self, code: &mut B)
        requires room { HasRoom B.CodeBuffer code.old (opening self.old.quote (quote_of self.old) ++ chunk self.old self.old.at) }
        ensures settles { GoesOn self.old.chunk_start self.old.at self.old self.new }
        ensures appends { Appends B.CodeBuffer code.old code.new (opening self.old.quote (quote_of self.old) ++ chunk self.old self.old.at) }
    {
        let _ = self.calculate_quote(code);
        print_with_room(code, &self.literal.bytes[self.chunk_start..self.at]);
    }

    // Flushes, prints the escape of the character c of n bytes, and starts a chunk behind it.
    fn flush_and_escape<B: CodeBuffer>(&mut self, code: &mut B, c: u32, e: EscapeSequence, n: usize)
        requires turn { TurnedHere self.old (Escaped e c n) }
        requires room { Room B.CodeBuffer code.old self.old }
        ensures moves { GoesOn (self.old.at + n) (self.old.at + n) self.old self.new }
        ensures appends { Appends B.CodeBuffer code.old code.new ((opening self.old.quote (quote_of self.old) ++ chunk self.old self.old.at) ++ (0x5C ∷ behind c e)) }
        ensures advanced { Advanced B.CodeBuffer self.old self.new code.old code.new }
        ensures further { self.old.at < self.new.at }
    {
        self.flush(code);
        print_escape(code, c, e);
        self.at += n;
        self.chunk_start = self.at;
    }

    // Flushes the chunk with the <, prints the slash escaped, and starts a chunk behind it.
    fn flush_tag<B: CodeBuffer>(&mut self, code: &mut B)
        requires turn { TurnedHere self.old Tag }
        requires room { Room B.CodeBuffer code.old self.old }
        ensures moves { GoesOn (self.old.at + 2) (self.old.at + 2) self.old self.new }
        ensures appends { Appends B.CodeBuffer code.old code.new ((opening self.old.quote (quote_of self.old) ++ chunk self.old (self.old.at + 1)) ++ (0x5C ∷ 0x2F ∷ [])) }
        ensures advanced { Advanced B.CodeBuffer self.old self.new code.old code.new }
        ensures further { self.old.at < self.new.at }
    {
        let _ = self.calculate_quote(code);
        print_with_room(code, &self.literal.bytes[self.chunk_start..self.at + 1]);
        print_with_room(code, b"\\/");
        self.at += 2;
        self.chunk_start = self.at;
    }

    // Settles the quote where it decides what is printed next.
    fn settle_where_decisive<B: CodeBuffer>(&mut self, code: &mut B)
        requires inside { self.old.at < length self.old.literal.now.bytes.now }
        requires room { Room B.CodeBuffer code.old self.old }
        ensures settles { quote_decides self.old ≡ true → GoesOn self.old.chunk_start self.old.at self.old self.new }
        ensures nowhere_else { quote_decides self.old ≡ false → self.new ≡ self.old }
        ensures advanced { Advanced B.CodeBuffer self.old self.new code.old code.new }
        ensures known { Known self.new }
        ensures stays { self.new.at ≡ self.old.at }
    {
        let escaping = &self.literal.escaping;
        if self.quote.is_none() && escaping.quote_decides(self.literal.bytes, self.at) {
            let _ = self.calculate_quote(code);
        }
    }

    // One character on, whose escape the quote decides only where it is settled.
    fn take_turn<B: CodeBuffer>(&mut self, code: &mut B)
        requires inside { self.old.at < length self.old.literal.now.bytes.now }
        requires room { Room B.CodeBuffer code.old self.old }
        requires known { Known self.old }
        ensures advanced { Advanced B.CodeBuffer self.old self.new code.old code.new }
        ensures further { self.old.at < self.new.at }
    {
        // Where it is not settled, any will do: the quote decides nothing here.
        let q = self.quote.unwrap_or(Quote::Double);
        let escaping = &self.literal.escaping;
        match escaping.next_turn(q, self.literal.bytes, self.at) {
            Turn::Plain(n) => {
                self.at += n;
            }
            Turn::Escaped(e, c, n) => {
                self.flush_and_escape(code, c, e, n);
            }
            Turn::Tag => {
                self.flush_tag(code);
            }
        }
    }

    /// One character on: it joins the chunk, or the chunk and then its escape are printed.
    pub fn advance<B: CodeBuffer>(&mut self, code: &mut B)
        requires inside { self.old.at < length self.old.literal.now.bytes.now }
        requires room { Room B.CodeBuffer code.old self.old }
        ensures advanced { Advanced B.CodeBuffer self.old self.new code.old code.new }
        ensures further { self.old.at < self.new.at }
    {
        self.settle_where_decisive(code);
        self.take_turn(code);
    }
}
