//! Raw text of a kind, as code that knows its length and prints itself.
ghost use Rattle.std.specs.Prelude.{◌≡◌, ◌*◌, ◌≤◌, length};
ghost use Rattle.codegen.specs.RawKinds.{check_of, printed_of};

use crate::raw_kind::RawKind;
use crate::raw_state::RawState;
use crate::raw_style::RawStyle;
use crate::raw_turn::RawTurn;
use crate::room::print_with_room;
use crate::whole::Printable;
use buffer::CodeBuffer;
use options::CodegenOptions;

/// Raw text of a kind, and the options that it is printed under.
#[derive(Drop)]
pub struct RawCode<'t> {
    kind: RawKind,
    options: CodegenOptions,
    bytes: &'t [u8],
    ghost checked: { (check_of kind bytes.now).number ≡ 0 },
}

impl<'t> RawCode<'t> {
    ghost use Rattle.codegen.specs.RawCursor.{raw_ahead};

    pub fn new(kind: RawKind, options: CodegenOptions, bytes: &'t [u8]) -> RawCode<'t>
        requires checked { (check_of kind bytes.now).number ≡ 0 }
        ensures { printed_of result.kind result.options result.bytes.now ≡ printed_of kind options bytes.now }
    {
        RawCode {
            kind,
            options,
            bytes,
        }
    }

    // The printer at its front.
    #[tactic(auto, using(crate::proofs::RawKept::kind_fits))]
    fn state(&self) -> RawState<'t>
        ensures all_of_it_is_ahead { result.rest.now ≡ self.now.bytes.now }
        ensures prints_its_code { raw_ahead result ≡ printed_of self.now.kind self.now.options self.now.bytes.now }
    {
        RawState::new(RawStyle::of(self.kind, self.options), self.bytes)
    }
}

impl<'t> Printable for RawCode<'t> {
    ghost code = { λ raw. printed_of raw.kind raw.options raw.bytes.now };

    #[tactic(auto, using(crate::proofs::RawKept::kind_bound))]
    fn size_bound(&self) -> usize {
        3 * self.bytes.len()
    }

    #[tactic(auto, using(crate::proofs::RawKept::kind_fits, crate::proofs::RawKept::kind_bound, crate::proofs::RawBound::counted))]
    fn size(&self) -> usize
        ensures is_its_length { result ≡ length (printed_of self.now.kind self.now.options self.now.bytes.now) }
        ensures is_at_most_three_times_as_long { result ≤ 3 * length self.now.bytes.now }
    {
        let mut state = self.state();
        let mut size = 0;
        while let Some(turn) = state.next_turn() {
            size += turn.size(state.style.mode);
        }
        size
    }

    // What is kept joins the chunk, which is flushed before something else is printed.
    fn print_to<B: CodeBuffer>(&self, out: &mut B) {
        let mut state = self.state();
        let mut chunk = self.bytes;
        let mut kept = 0;
        while let Some(turn) = state.next_turn() {
            if let RawTurn::Keep(n) = turn {
                kept += n;
            } else {
                print_with_room(out, &chunk[..kept]);
                turn.print_to(out, state.style.mode);
                chunk = state.rest;
                kept = 0;
            }
        }
        print_with_room(out, &chunk[..kept]);
    }
}
