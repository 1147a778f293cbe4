//! What every code buffer is, and the one way in which it refuses.
ghost use Rattle.std.specs.Prelude.{◌≡◌, ℕ, ◌+◌, ◌^◌, ◌<◌, List, length, drop};
ghost use Rattle.std.specs.Borrow.{GName};
ghost use Rattle.buffer.specs.Faults.{tells};
ghost use Rattle.buffer.specs.Laws.{Lawful, Noting};
ghost use Rattle.buffer.specs.Meaning.{count_after, print_answer, printed, accepted};

use refusal::{Layer, Refusal, Value};

/// The number of a buffer that is full.
const BUFFER_FULL: u32 = 7;

/// Why a print was refused.
#[derive(Clone, Copy, Debug, PartialEq)]
pub enum BufferFault {
    /// The limit is too low: so many bytes would have been held.
    Full(usize),
}

impl From<BufferFault> for Refusal {
    ghost from_gives = { λ fault refusal. refusal ≡ tells fault };

    fn from(fault: BufferFault) -> Refusal {
        let BufferFault::Full(need) = fault;
        Refusal {
            number: BUFFER_FULL,
            layer: Layer::Buffer,
            value: Some(Value::Need(need)),
        }
    }
}

/// A list of bytes that grows at its end, up to a limit that never changes.
pub trait CodeBuffer {
    // The bytes that it holds.
    ghost bytes: { Self → List ℕ };

    // The length that they never pass.
    ghost limit_of: { Self → ℕ };

    // Every cell that it stands over, held or not.
    ghost memory: { Self → List ℕ };

    // Which caller's memory it stands over.
    ghost home: { Self → GName };

    ghost laws: { Lawful bytes limit_of };

    // What its layers note of the bytes that were appended between two states.
    ghost noted: { Self → Self → List ℕ → Type 0 };

    ghost notes: { Noting noted };

    /// How many bytes it holds.
    fn held(&self) -> usize
        ensures answers_how_many_bytes_it_holds { result ≡ length (bytes self.now) };

    /// How many bytes it may hold.
    fn limit(&self) -> usize
        ensures answers_the_limit { result ≡ limit_of self.now };

    /// Appends the whole text, or refuses it and leaves all as it was.
    fn print(&mut self, text: &[u8]) -> Result<(), BufferFault>
        ensures answers_seven_with_the_need { result ≡ print_answer (bytes self.old) (limit_of self.old) text.now }
        ensures appends_all_or_nothing { bytes self.new ≡ printed (bytes self.old) (limit_of self.old) text.now }
        ensures limit_stays { limit_of self.new ≡ limit_of self.old }
        ensures beyond_is_untouched { drop (length (bytes self.new)) (memory self.new) ≡ drop (length (bytes self.new)) (memory self.old) }
        ensures home_stays { home self.new ≡ home self.old }
        ensures notes_what_was_appended { noted self.old self.new (accepted (bytes self.old) (limit_of self.old) text.now) };
}

/// How many bytes are held after some more, where that is within the limit.
pub fn held_after(held: usize, more: usize, limit: usize) -> Result<usize, BufferFault>
    requires { held + more < 2 ^ 64 }
    ensures counts_or_answers_seven_with_the_need { result ≡ count_after held more limit }
{
    let need = held + more;
    if need > limit {
        return Err(BufferFault::Full(need));
    }
    Ok(need)
}
