//! The kinds of raw text, and what each is checked for.
ghost use Rattle.std.specs.Prelude.{◌≡◌};
ghost use Rattle.text.specs.Answers.{returned};
ghost use Rattle.codegen.specs.RawKinds.{check_of};

use text::{TextFault, check_name, check_raw_text, check_template_text};

/// What raw text is printed as.
// Matched once for its check and once for its style: callers and C choose it by value.
#[derive(Clone, Copy, Debug, PartialEq)]
pub enum RawKind {
    /// A piece of an untagged template.
    Piece,
    /// A piece of a tagged template.
    TaggedPiece,
    /// The text of a directive.
    Directive,
    /// The pattern of a regular expression.
    Pattern,
    /// A name.
    Name,
}

// Whether these bytes are raw text of this kind, or why not.
pub fn check_kind(kind: RawKind, bytes: &[u8]) -> Result<(), TextFault>
    ensures refuses_as_its_kind_does { returned result ≡ check_of kind bytes.now }
{
    match kind {
        RawKind::Piece => check_template_text(bytes),
        RawKind::TaggedPiece | RawKind::Directive | RawKind::Pattern => check_raw_text(bytes),
        RawKind::Name => check_name(bytes),
    }
}
