//! The styles of raw text: the steps in which each kind is printed.
ghost use Rattle.std.specs.Prelude.{◌≡◌, ℕ, true, false, ◌&&◌, List};
ghost use Rattle.literal.specs.declared.NonAsciiEscape.TheVariants.{TemplateRaw};
ghost use Rattle.literal.specs.Raw.{continues_lines, is_separator};
ghost use Rattle.codegen.specs.RawKinds.{style_of, printed_of};
ghost use Rattle.codegen.specs.RawTurns.{goes_before, raw_body};

use crate::raw_kind::RawKind;
use literal::NonAsciiEscape;
use options::CodegenOptions;

/// Which steps raw text is printed in.
// Four settings and no closures: the steps are those of the five kinds, and one walk carries them out together.
#[derive(Clone, Copy)]
pub struct RawStyle {
    /// A backslash before `$` goes where it is not needed.
    pub dollars: bool,
    /// Every character above U+007F is escaped.
    pub ascii_only: bool,
    /// What it is escaped for.
    pub mode: NonAsciiEscape,
    /// `</script` is broken.
    pub tags: bool,
}

impl RawStyle {
    /// How raw text of a kind is printed under the options.
    #[tactic(auto, using(crate::proofs::RawKept::piece_is, crate::proofs::RawKept::tagged_is, crate::proofs::RawKept::directive_is, crate::proofs::RawKept::regex_is, crate::proofs::RawKept::name_is))]
    pub fn of(kind: RawKind, options: CodegenOptions) -> RawStyle
        ensures has_the_steps_of_its_kind { result ≡ style_of kind options }
        ensures prints_what_is_printed_of_the_kind { (bytes : List ℕ) → raw_body result false bytes ≡ printed_of kind options bytes }
    {
        let ascii_only = options.ascii_only;
        match kind {
            RawKind::Piece => RawStyle::in_templates(options.minify, ascii_only),
            RawKind::TaggedPiece => RawStyle::in_templates(false, false),
            RawKind::Directive => RawStyle::elsewhere(ascii_only, NonAsciiEscape::Directive),
            RawKind::Pattern => RawStyle::elsewhere(ascii_only, NonAsciiEscape::RegExp),
            RawKind::Name => RawStyle::elsewhere(ascii_only, NonAsciiEscape::Identifier),
        }
    }

    fn in_templates(dollars: bool, ascii_only: bool) -> RawStyle
        ensures { result ≡ record { dollars = dollars; ascii_only = ascii_only; mode = TemplateRaw; tags = true } }
    {
        RawStyle {
            dollars,
            ascii_only,
            mode: NonAsciiEscape::TemplateRaw,
            tags: true,
        }
    }

    fn elsewhere(ascii_only: bool, mode: NonAsciiEscape) -> RawStyle
        ensures { result ≡ record { dollars = false; ascii_only = ascii_only; mode = mode; tags = false } }
    {
        RawStyle {
            dollars: false,
            ascii_only,
            mode,
            tags: false,
        }
    }

    /// Whether the last backslash of an odd run goes before the bytes next and then after.
    pub fn drops_backslash(self, next: u32, after: u32) -> bool
        ensures { result ≡ goes_before self next after }
    {
        match next {
            0x24 => after != 0x7B && self.dollars,
            0x80.. => !matches!(self.mode, NonAsciiEscape::Identifier) && self.ascii_only,
            _ => false,
        }
    }

    /// Whether c, behind an odd run of backslashes or not, ends a line that is to go on.
    pub fn continues_line(self, odd: bool, c: u32) -> bool
        ensures { result ≡ (is_separator c && odd && continues_lines self.mode) }
    {
        matches!(c, 0x2028 | 0x2029)
            && odd
            && matches!(
                self.mode,
                NonAsciiEscape::TemplateRaw | NonAsciiEscape::Directive
            )
    }
}
