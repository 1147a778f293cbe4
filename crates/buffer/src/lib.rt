//! Code buffers: where printed code goes.
//!
//! A code buffer means the bytes that it holds and a limit that they never pass. Printing appends a whole text or
//! refuses it whole. Read in this order: `code_buffer` (the trait, and its one fault), `slice_buffer` (over the
//! caller's bytes) and `owned_buffer` (with 4,096 bytes of its own), which both append by `cells`, then two layers
//! that stand over any code buffer and are code buffers again: `quota` (a lower limit) and `line_watch` (counts lines
//! and columns, by a `tally`). Last, `layers` shows that a watch's counts are known through the layers over it.
#![tactic(auto)]

mod cells;
mod code_buffer;
mod layers;
mod line_watch;
mod owned_buffer;
mod quota;
mod slice_buffer;
mod tally;

pub use code_buffer::{BufferFault, CodeBuffer};
pub use line_watch::LineWatch;
pub use owned_buffer::OwnedBuffer;
pub use quota::Quota;
pub use slice_buffer::SliceBuffer;

#[cfg(test)]
mod tests;
