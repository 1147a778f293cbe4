//! What every refusal tells: its number, the layer that refused, and the place, need or count that goes with the number.
//!
//! Each layer has a fault type of its own, from which a refusal is made by `From`. `specs/Returned.antt` turns an answer, a
//! `Result` of any layer, into its number and amount; contracts speak of answers through it. `specs/Telling.antt` has the
//! bytes that are printed of a refusal.
#![tactic(auto)]

ghost use Rattle.std.specs.Prelude.{◌≡◌, Some};
ghost use Rattle.refusal.specs.Returned.{amount_of};
ghost use Rattle.refusal.specs.Telling.{layer_name, value_told, refusal_told};

use std::fmt;

/// The layer that a refusal comes from.
#[derive(Clone, Copy, Debug, PartialEq)]
pub enum Layer {
    /// A text value: 1 to 5.
    Text,
    /// A code buffer: 7.
    Buffer,
    /// A page: 6, and 7 of a page call.
    Page,
    /// The page reader: 8 to 10.
    Reader,
}

/// What goes with a refusal's number.
#[derive(Clone, Copy, Debug, PartialEq)]
pub enum Value {
    /// Where the first breach begins, in bytes from 0.
    Place(usize),
    /// How many bytes would have been held.
    Need(usize),
    /// How many there are: for the page reader, which tells how many units a value has.
    Count(usize),
}

/// A refusal, with the value that belongs to its number, where there is one.
#[derive(Clone, Copy, Debug, PartialEq)]
pub struct Refusal {
    // A bare number, since it is what C and the printed lines show.
    pub number: u32,
    pub layer: Layer,
    pub value: Option<Value>,
}

impl Refusal {
    /// The value's number without what it counts, else 0: what C is told.
    pub fn amount(self) -> usize
        ensures is_the_values_else_zero { result ≡ amount_of self.value }
    {
        match self.value {
            Some(Value::Place(n) | Value::Need(n) | Value::Count(n)) => n,
            None => 0,
        }
    }
}

impl fmt::Display for Layer {
    ghost output = { λ layer. Some (layer_name layer) };

    fn fmt<W: fmt::Write>(&self, f: &mut fmt::Formatter<W>) -> fmt::Result {
        f.write_str(match self {
            Layer::Text => "text",
            Layer::Buffer => "buffer",
            Layer::Page => "page",
            Layer::Reader => "reader",
        })
    }
}

impl fmt::Display for Value {
    ghost output = { λ value. Some (value_told value) };

    fn fmt<W: fmt::Write>(&self, f: &mut fmt::Formatter<W>) -> fmt::Result {
        match self {
            Value::Place(place) => write!(f, "place {place}"),
            Value::Need(need) => write!(f, "need {need}"),
            Value::Count(count) => write!(f, "count {count}"),
        }
    }
}

impl fmt::Display for Refusal {
    ghost output = { λ refusal. Some (refusal_told refusal) };

    fn fmt<W: fmt::Write>(&self, f: &mut fmt::Formatter<W>) -> fmt::Result {
        let number = self.number;
        let layer = self.layer;
        match self.value {
            Some(value) => write!(f, "{number} {layer}, {value}"),
            None => write!(f, "{number} {layer}"),
        }
    }
}
