//! Printing where there is room.
ghost use Rattle.std.specs.Prelude.{◌∷◌};
ghost use Rattle.literal.specs.Escapes.{behind};
ghost use Rattle.buffer.specs.Printing.{Appends};
ghost use Rattle.codegen.specs.Room.{HasRoom};

use crate::escape_sequence;
use buffer::CodeBuffer;
use literal::EscapeSequence;

/// Prints what there is room for.
pub fn print_with_room<B: CodeBuffer>(code: &mut B, text: &[u8])
    requires room { HasRoom B.CodeBuffer code.old text.now }
    ensures { Appends B.CodeBuffer code.old code.new text.now }
{
    let _ = code.print(text);
}

/// Prints an escape of c that there is room for.
pub fn print_escape<B: CodeBuffer>(code: &mut B, c: u32, e: EscapeSequence)
    requires room { HasRoom B.CodeBuffer code.old (0x5C ∷ behind c e) }
    ensures { Appends B.CodeBuffer code.old code.new (0x5C ∷ behind c e) }
{
    let _ = escape_sequence::print_escape(code, c, e);
}
