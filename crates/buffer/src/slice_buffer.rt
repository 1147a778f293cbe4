//! A code buffer over bytes that the caller lends.
ghost use Rattle.std.specs.Prelude.{◌≡◌, ◌≤◌, [], length, take};
ghost use Rattle.std.proofs.Math.Nat.{min-le_right};
ghost use Rattle.buffer.specs.Kinds.{slice_limit, held_bytes};
ghost use Rattle.buffer.specs.KindsAreLawful.{held_within};
ghost use Rattle.buffer.specs.KindsNote.{notes_nothing};

use super::cells::append;
use super::code_buffer::{BufferFault, CodeBuffer};

/// The most that any code buffer holds.
const MAX_LIMIT: usize = 65536;

/// Holds the first `used` of the caller's cells; what stands beyond them is never touched.
#[derive(Drop)]
pub struct SliceBuffer<'a> {
    // Cells with a count beside them: memory is fixed, and there is no heap.
    cells: &'a mut [u8],
    used: usize,
    ghost fits: { used ≤ slice_limit cells.now },
}

impl<'a> CodeBuffer for SliceBuffer<'a> {
    ghost bytes = { λ b. held_bytes b.used b.cells.now };

    ghost limit_of = { λ b. slice_limit b.cells.now };

    ghost memory = { λ b. b.cells.now };

    ghost home = { λ b. b.cells.ghost_name };

    ghost laws = { record { within = λ b. held_within b.used b.cells.now b.fits; bounded = λ b. min-le_right (length b.cells.now) 65536 } };

    ghost noted = { λ a b s. Unit {0} };

    ghost notes = { notes_nothing };

    fn held(&self) -> usize {
        self.used
    }

    fn limit(&self) -> usize {
        self.cells.len().min(MAX_LIMIT)
    }

    fn print(&mut self, text: &[u8]) -> Result<(), BufferFault> {
        let limit = self.limit();
        self.used = append(self.cells, self.used, limit, text)?;
        Ok(())
    }
}

impl<'a> SliceBuffer<'a> {
    /// Begins empty over these cells.
    pub fn new(cells: &'a mut [u8]) -> SliceBuffer<'a>
        ensures begins_empty { held_bytes result.used result.cells.now ≡ [] }
        ensures cells_are_as_they_came { result.cells.now ≡ cells.old }
        ensures stands_over_these_cells { result.cells.ghost_name ≡ cells.entry.ghost_name }
    {
        SliceBuffer { cells, used: 0 }
    }

    /// Ends it: so many of the caller's first cells are what it held.
    pub fn finish(self) -> usize
        ensures answers_how_many_it_held { result ≡ length (held_bytes self.entry.used self.entry.cells.now) }
        ensures cells_stay { self.exit.0.now ≡ self.entry.cells.now }
        ensures shows_what_it_held { take result self.exit.0.now ≡ held_bytes self.entry.used self.entry.cells.now }
    {
        let SliceBuffer { cells: _, used } = self;
        used
    }
}
