//! That what a layer notes is known through the layers over it, and through code that prints to any code buffer.
ghost use Rattle.std.specs.Prelude.{◌≡◌, length};
ghost use Rattle.buffer.specs.Kinds.{quota_limit};
ghost use Rattle.buffer.specs.Meaning.{accepted};
ghost use Rattle.buffer.specs.Printing.{Prints};
ghost use Rattle.buffer.specs.Tally.{tally};
ghost use Rattle.buffer.specs.Watching.{counts};

use super::code_buffer::{BufferFault, CodeBuffer};
use super::line_watch::LineWatch;
use super::quota::Quota;

// Knows nothing of layers.
fn print_to_any<B: CodeBuffer>(code: &mut B, text: &[u8]) -> Result<(), BufferFault>
    ensures prints { Prints B.CodeBuffer code.old code.new text.now result }
{
    code.print(text)
}

// The watch stands under a quota, and counts what came through it.
fn print_over_a_watch<B: CodeBuffer>(
    code: &mut Quota<LineWatch<B>>,
    text: &[u8],
) -> Result<(), BufferFault>
    ensures watch_below_counts { counts B.CodeBuffer code.new.below ≡ tally (counts B.CodeBuffer code.old.below) (accepted (B.bytes code.old.below.below) (quota_limit (length (B.bytes code.old.below.below)) code.old.limit (B.limit_of code.old.below.below)) text.now) }
{
    print_to_any(code, text)
}
