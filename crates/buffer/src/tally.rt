//! The line feeds and the column of what was printed.
ghost use Rattle.std.specs.Prelude.{◌≡◌, ◌+◌, ◌^◌, ◌<◌, ◌≤◌, length};
ghost use Rattle.buffer.specs.Tally.{stepped, tally};

const LINE_FEED: u8 = 0x0A;

/// How many line feeds came, and how many bytes since the last one, or since the start where none came.
#[derive(Clone, Copy, Debug, PartialEq)]
pub struct Tally {
    pub line_feeds: usize,
    pub column: usize,
}

impl Tally {
    /// The tally after this text.
    #[tactic(auto, using(crate::proofs::Tallies::growth))]
    pub fn after(self, text: &[u8]) -> Tally
        requires line_feeds_fit { self.line_feeds + length text.now < 2 ^ 64 }
        requires column_fits { self.column + length text.now < 2 ^ 64 }
        ensures counts_on { result ≡ tally self text.now }
        ensures line_feeds_grow_by_one_a_byte_at_most { result.line_feeds ≤ self.line_feeds + length text.now }
        ensures column_grows_by_one_a_byte_at_most { result.column ≤ self.column + length text.now }
    {
        let mut tally = self;
        for byte in text {
            tally = tally.step(*byte);
        }
        tally
    }

    /// The tally after one more byte.
    fn step(self, byte: u8) -> Tally
        requires line_feeds_fit { self.line_feeds + 1 < 2 ^ 64 }
        requires column_fits { self.column + 1 < 2 ^ 64 }
        ensures counts_on { result ≡ stepped self byte }
    {
        if byte == LINE_FEED {
            Tally {
                line_feeds: self.line_feeds + 1,
                column: 0,
            }
        } else {
            Tally {
                column: self.column + 1,
                ..self
            }
        }
    }
}
