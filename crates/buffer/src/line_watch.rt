//! A layer that counts the lines and columns of what is printed through it.
ghost use Rattle.std.specs.Prelude.{◌≡◌};

use super::code_buffer::{BufferFault, CodeBuffer};
use super::tally::Tally;

/// Passes bytes through, and counts their line feeds and the bytes since the last of these, or since it was made.
// No invariant, as in `Quota`: what was counted is never more than is held, and the meaning says so.
pub struct LineWatch<B: CodeBuffer> {
    below: B,
    tally: Tally,
}

impl<B: CodeBuffer> CodeBuffer for LineWatch<B> {
    ghost use Rattle.buffer.specs.KindsNote.{watch_notes};
    ghost use Rattle.buffer.specs.Watching.{Watched};

    ghost bytes = { λ w. B.CodeBuffer.bytes w.below };

    ghost limit_of = { λ w. B.CodeBuffer.limit_of w.below };

    ghost memory = { λ w. B.CodeBuffer.memory w.below };

    ghost home = { λ w. B.CodeBuffer.home w.below };

    ghost laws = { record { within = λ w. B.CodeBuffer.laws.within w.below; bounded = λ w. B.CodeBuffer.laws.bounded w.below } };

    // Its counts go on by the bytes that were appended.
    ghost noted = { Watched B.CodeBuffer };

    ghost notes = { watch_notes B.CodeBuffer };

    // Passed on, as by `Quota`.
    fn held(&self) -> usize {
        self.below.held()
    }

    fn limit(&self) -> usize {
        self.below.limit()
    }

    fn print(&mut self, text: &[u8]) -> Result<(), BufferFault> {
        let tally = self.tally();
        self.below.print(text)?;
        self.tally = tally.after(text);
        Ok(())
    }
}

impl<B: CodeBuffer> LineWatch<B> {
    ghost use Rattle.buffer.specs.Tally.{nothing_yet, TallyIsPlainCounts};
    ghost use Rattle.buffer.specs.Watching.{counts};

    /// Watches this buffer from here on.
    pub fn new(below: B) -> LineWatch<B>
        ensures holds_the_buffer_as_it_came { result.below ≡ below }
        ensures has_counted_nothing_yet { counts B.CodeBuffer result ≡ nothing_yet }
        ensures tally_is_plain_counts { TallyIsPlainCounts }
    {
        LineWatch {
            below,
            tally: Tally {
                line_feeds: 0,
                column: 0,
            },
        }
    }

    // What came so far.
    fn tally(&self) -> Tally
        ensures { result ≡ counts B.CodeBuffer self.now }
    {
        Tally {
            line_feeds: self.line_feeds(),
            column: self.column(),
        }
    }

    /// How many line feeds came.
    pub fn line_feeds(&self) -> usize
        ensures answers_how_many_line_feeds_came { result ≡ (counts B.CodeBuffer self.now).line_feeds }
    {
        self.tally.line_feeds.min(self.below.held())
    }

    /// How many bytes came since the last line feed, or in all where none came.
    pub fn column(&self) -> usize
        ensures answers_how_many_bytes_came_since { result ≡ (counts B.CodeBuffer self.now).column }
    {
        self.tally.column.min(self.below.held())
    }

    /// Gives the buffer back.
    pub fn into_inner(self) -> B
        ensures gives_the_buffer_back { result ≡ self.below }
    {
        let LineWatch { below, tally: _ } = self;
        below
    }
}
