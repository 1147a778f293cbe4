//! Why bytes that were to be checked and printed were not printed.
ghost use Rattle.std.specs.Prelude.{◌≡◌};
ghost use Rattle.codegen.specs.declared.fault.PrintFault.TheVariants.{Text, Buffer};
ghost use Rattle.codegen.specs.Checked.{tells};

use buffer::BufferFault;
use refusal::Refusal;
use text::TextFault;

/// The fault of the layer that refused, whole.
#[derive(Clone, Copy, Debug, PartialEq)]
pub enum PrintFault {
    /// The bytes are no text, name or raw text of their kind.
    Text(TextFault),
    /// What is printed does not fit.
    Buffer(BufferFault),
}

impl From<TextFault> for PrintFault {
    ghost from_gives = { λ x y. y ≡ Text x };

    fn from(fault: TextFault) -> PrintFault {
        PrintFault::Text(fault)
    }
}

impl From<BufferFault> for PrintFault {
    ghost from_gives = { λ x y. y ≡ Buffer x };

    fn from(fault: BufferFault) -> PrintFault {
        PrintFault::Buffer(fault)
    }
}

impl From<PrintFault> for Refusal {
    ghost from_gives = { λ fault refusal. refusal ≡ tells fault };

    /// What the layer told.
    fn from(fault: PrintFault) -> Refusal {
        match fault {
            PrintFault::Text(fault) => Refusal::from(fault),
            PrintFault::Buffer(fault) => Refusal::from(fault),
        }
    }
}
