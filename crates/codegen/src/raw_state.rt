//! The raw printer's place in a text, which takes the turns of what is ahead one by one.
ghost use Rattle.std.specs.Prelude.{◌≡◌, ◌<◌, ◌≤◌, false, not, ◌&&◌, length, slice_index};
ghost use Rattle.std.proofs.Props.{props};
ghost use Rattle.ecma262.specs.Lookahead.{opens};
ghost use Rattle.literal.specs.Escapes.{tag};
ghost use Rattle.literal.specs.Raw.{odd_behind};
ghost use Rattle.codegen.specs.RawTurns.{RawTurned, goes_before, raw_body};
ghost use Rattle.codegen.specs.Turns.{Fit};

use crate::raw_style::RawStyle;
use crate::raw_turn::RawTurn;
use crate::turn::is_script_close_tag;
use text::{byte_at, decode};

/// A place in raw text that is printed in a style: the end, or one where a character begins.
#[derive(Drop)]
pub struct RawState<'t> {
    pub style: RawStyle,
    /// What is ahead.
    pub rest: &'t [u8],
    /// An odd run of backslashes stands before it.
    pub odd: bool,
    ghost fit: { Fit false rest.now } by { Prim.hlevel props },
}

// Whether an odd run of backslashes stands behind the byte b.
fn odd_behind(odd: bool, b: u8) -> bool
    ensures { result ≡ odd_behind odd b }
{
    !odd && b == b'\\'
}

// What a turn is made of is inlined, so that the place stays in registers through a loop of turns.
impl<'t> RawState<'t> {
    ghost use Rattle.codegen.specs.RawCursor.{raw_ahead, RawWalked};

    /// At the front of a text.
    pub fn new(style: RawStyle, text: &'t [u8]) -> RawState<'t>
        requires fit { Fit false text.now }
        ensures all_of_it_is_ahead { result.rest.now ≡ text.now }
        ensures prints_it_in_this_style { raw_ahead result ≡ raw_body style false text.now }
    {
        RawState {
            style,
            rest: text,
            odd: false,
        }
    }

    // Whether the backslash here goes.
    #[inline(always)]
    fn drops_backslash(&self) -> bool
        ensures { result ≡ (not self.now.odd && goes_before self.now.style (slice_index self.now.rest.now 1) (slice_index self.now.rest.now 2)) }
    {
        let style = self.style;
        !self.odd && style.drops_backslash(byte_at(self.rest, 1), byte_at(self.rest, 2))
    }

    // Whether a tag here is broken.
    #[inline(always)]
    fn breaks_tag(&self) -> bool
        ensures { result ≡ (opens tag self.now.rest.now && self.now.style.tags) }
    {
        is_script_close_tag(self.rest) && self.style.tags
    }

    // What is done here.
    #[inline(always)]
    fn turn(&self) -> RawTurn
        requires more { 0 < length self.now.rest.now }
        ensures { RawTurned self.now.style self.now.odd self.now.rest.now result }
    {
        match self.rest[0] {
            0x80.. => self.wide_turn(),
            b'\\' if self.drops_backslash() => RawTurn::Drop,
            b'<' if self.breaks_tag() => RawTurn::Tag,
            _ => RawTurn::Keep(1),
        }
    }

    // The same at a character above U+007F.
    #[inline(always)]
    fn wide_turn(&self) -> RawTurn
        requires more { 0 < length self.now.rest.now }
        requires wide { 0x80 ≤ slice_index self.now.rest.now 0 }
        ensures { RawTurned self.now.style self.now.odd self.now.rest.now result }
    {
        let (c, n) = decode(self.rest, 0);
        if self.style.ascii_only {
            if self.style.continues_line(self.odd, c) {
                RawTurn::LineEnd(n)
            } else {
                RawTurn::Escaped(c, n)
            }
        } else {
            RawTurn::Keep(n)
        }
    }

    /// Takes the next turn, if anything is ahead.
    // No `Iterator`, which would be no plainer: a `for` takes the place itself, and printing reads what is ahead of each turn.
    #[tactic(auto, using(crate::proofs::RawSteps::none_ahead))]
    #[inline(always)]
    pub fn next_turn(&mut self) -> Option<RawTurn>
        ensures { RawWalked self.old self.new result }
    {
        if self.rest.is_empty() {
            return None;
        }
        let turn = self.turn();
        let rest = self.rest;
        self.odd = odd_behind(self.odd, rest[0]);
        self.rest = &rest[turn.takes()..];
        Some(turn)
    }
}
