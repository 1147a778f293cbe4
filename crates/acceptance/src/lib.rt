//! Tests over several crates, and no code of its own.
//!
//! `tests` runs the worked examples, the limits, and refusals that touch nothing; `raw` prints raw text and names; `jobs` reads jobs, one line of a table each.
//! The examples are proved of the definitions too (`codegen::samples_hold`); here the code prints them.
#![tactic(auto)]

#[cfg(test)]
mod jobs;
#[cfg(test)]
mod raw;
#[cfg(test)]
mod tests;
