//! The options that printing goes by, for a job as for the printer.
#![tactic(auto)]

/// How texts are printed.
#[derive(Clone, Copy, Debug, PartialEq)]
pub struct CodegenOptions {
    /// Single quotes instead of double ones, unless `minify` is set.
    pub single_quote: bool,
    /// The quotes that give the shortest literal.
    pub minify: bool,
    /// Every character above U+007F is escaped.
    pub ascii_only: bool,
}

impl CodegenOptions {
    /// What holds where nothing is asked for.
    pub const NONE: CodegenOptions = CodegenOptions {
        single_quote: false,
        minify: false,
        ascii_only: false,
    };
}
