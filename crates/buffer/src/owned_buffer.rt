//! A code buffer that owns its cells.
ghost use Rattle.std.specs.Prelude.{◌≡◌, ◌≤◌, [], length, take};
ghost use Rattle.std.proofs.Common.{lit≤};
ghost use Rattle.buffer.specs.Kinds.{owned_limit, held_bytes};
ghost use Rattle.buffer.specs.KindsAreLawful.{held_within};
ghost use Rattle.buffer.specs.KindsNote.{notes_nothing};

use super::cells::append;
use super::code_buffer::{BufferFault, CodeBuffer};

/// How many bytes an owned buffer holds at most.
// No const parameter: one size is used, and with any other the limit would be the lesser of it and 65,536.
const OWNED_LIMIT: usize = 4096;

/// Holds the first `used` of its own cells.
#[derive(Drop)]
pub struct OwnedBuffer {
    // Cells with a count beside them: memory is fixed, and there is no heap.
    cells: [u8; OWNED_LIMIT],
    used: usize,
    ghost fits: { used ≤ owned_limit },
}

impl CodeBuffer for OwnedBuffer {
    ghost bytes = { λ b. held_bytes b.used b.cells };

    ghost limit_of = { λ b. owned_limit };

    ghost memory = { λ b. b.cells };

    ghost home = { λ b. 0 };

    ghost laws = { record { within = λ b. held_within b.used b.cells b.fits; bounded = λ b. lit≤ tt } };

    ghost noted = { λ a b s. Unit {0} };

    ghost notes = { notes_nothing };

    fn held(&self) -> usize {
        self.used
    }

    fn limit(&self) -> usize {
        OWNED_LIMIT
    }

    fn print(&mut self, text: &[u8]) -> Result<(), BufferFault> {
        self.used = append(&mut self.cells, self.used, OWNED_LIMIT, text)?;
        Ok(())
    }
}

impl OwnedBuffer {
    /// Begins empty.
    pub fn new() -> OwnedBuffer
        ensures begins_empty { held_bytes result.used result.cells ≡ [] }
    {
        OwnedBuffer {
            cells: [0; OWNED_LIMIT],
            used: 0,
        }
    }

    /// The bytes that it holds.
    pub fn as_bytes(&self) -> &[u8]
        ensures shows_what_it_holds { result.now ≡ held_bytes self.now.used self.now.cells }
    {
        &self.cells[..self.used]
    }

    /// Ends it: its cells, and how many of the first of them it held; memory is fixed, so they go back as they are.
    pub fn finish(self) -> ([u8; OWNED_LIMIT], usize)
        ensures answers_how_many_it_held { result.1 ≡ length (held_bytes self.used self.cells) }
        ensures shows_what_it_held { take result.1 result.0 ≡ held_bytes self.used self.cells }
    {
        let OwnedBuffer { cells, used } = self;
        (cells, used)
    }
}
