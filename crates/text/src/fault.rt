//! Why a text value is not made.
ghost use Rattle.std.specs.Prelude.{◌≡◌};
ghost use Rattle.text.specs.Answers.{tells};

use refusal::{Layer, Refusal, Value};

#[derive(Clone, Copy, Debug, PartialEq)]
pub enum TextFault {
    /// Over the limit of its kind.
    TooLong,
    /// Not well formed, from this place on.
    Malformed(usize),
    /// The surrogate flag is not exact.
    Misflagged,
    /// Not a name, from this place on.
    NotName(usize),
    /// Not template text, from this place on.
    NotTemplate(usize),
}

impl From<TextFault> for Refusal {
    ghost from_gives = { λ fault refusal. refusal ≡ tells fault };

    fn from(fault: TextFault) -> Refusal {
        let (number, value) = match fault {
            TextFault::TooLong => (1, None),
            TextFault::Malformed(place) => (2, Some(Value::Place(place))),
            TextFault::Misflagged => (3, None),
            TextFault::NotName(place) => (4, Some(Value::Place(place))),
            TextFault::NotTemplate(place) => (5, Some(Value::Place(place))),
        };
        Refusal {
            number,
            layer: Layer::Text,
            value,
        }
    }
}
