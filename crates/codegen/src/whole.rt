//! Code that is printed whole or not at all.
ghost use Rattle.std.specs.Prelude.{◌≡◌, ℕ, ◌+◌, ◌≤◌, List, length};
ghost use Rattle.buffer.specs.Printing.{Prints, Appends};
ghost use Rattle.buffer.specs.Meaning.{print_answer};
ghost use Rattle.codegen.specs.Room.{HasRoom};

use buffer::{BufferFault, CodeBuffer};

/// Code that knows its length, and prints itself where there is room.
pub trait Printable {
    // Its bytes.
    ghost code: { Self → List ℕ };

    /// A bound of its length that needs no measuring.
    fn size_bound(&self) -> usize
        ensures is_no_less_than_its_length { length (code self.now) ≤ result }
        ensures is_small { result ≤ 196608 };

    /// Its length.
    fn size(&self) -> usize
        ensures is_its_length { result ≡ length (code self.now) };

    /// Prints it, where there is room.
    // Each function that prints asks for the room of its own text: the buffer changes from one to the next, so no type can hold it.
    fn print_to<B: CodeBuffer>(&self, out: &mut B)
        requires room { HasRoom B.CodeBuffer out.old (code self.now) }
        ensures appends { Appends B.CodeBuffer out.old out.new (code self.now) };
}

// Whether the code fits, or the fault that tells its need. It is measured only where its bound does not fit.
fn refuse_if_too_long<P: Printable, B: CodeBuffer>(
    printable: &P,
    out: &B,
) -> Result<(), BufferFault>
    ensures { result ≡ print_answer (B.CodeBuffer.bytes out.now) (B.CodeBuffer.limit_of out.now) (P.code printable.now) }
{
    let held = out.held();
    let limit = out.limit();
    if held + printable.size_bound() <= limit {
        return Ok(());
    }
    let need = held + printable.size();
    if need > limit {
        return Err(BufferFault::Full(need));
    }
    Ok(())
}

/// Prints the code, or refuses it whole.
pub fn print_whole<P: Printable, B: CodeBuffer>(
    printable: &P,
    out: &mut B,
) -> Result<(), BufferFault>
    ensures prints { Prints B.CodeBuffer out.old out.new (P.code printable.now) result }
{
    refuse_if_too_long(printable, out)?;
    printable.print_to(out);
    Ok(())
}
