//! Which quotes give the shortest literal.
ghost use Rattle.std.specs.Prelude.{◌≡◌, ◌+◌, ◌<◌, ◌≤◌, ◌&&◌, ◌||◌, length, if◌then◌else◌, ◌==◌, nat_le};
ghost use Rattle.std.proofs.Math.Utf8.{encodes};
ghost use Rattle.ecma262.specs.declared.Quote.TheVariants.{Single, Double, Backtick};
ghost use Rattle.literal.specs.Quotes.{chosen};
ghost use Rattle.text.specs.Sequence.{code_points};

use crate::turn::OPENING_BRACE;
use ecma262::Quote;
use text::byte_at;

// What each quote costs; each line feed takes 1 off the backtick's cost.
#[derive(Clone, Copy, Default)]
struct Costs {
    single: usize,
    double: usize,
    backtick: usize,
    lines: usize,
}

impl Costs {
    // One more byte, before the byte next.
    fn add(&mut self, b: u8, next: u32)
        requires { (self.old.single < 65536) × (self.old.double < 65536) × (self.old.backtick < 65536) × (self.old.lines < 65536) }
        ensures single { self.new.single ≡ self.old.single + (if b == 0x27 then 1 else 0) }
        ensures double { self.new.double ≡ self.old.double + (if b == 0x22 then 1 else 0) }
        ensures backtick { self.new.backtick ≡ self.old.backtick + (if b == 0x60 || b == 0x24 && next == 0x7B then 1 else 0) }
        ensures lines { self.new.lines ≡ self.old.lines + (if b == 0x0A then 1 else 0) }
    {
        match b {
            b'\n' => self.lines += 1,
            b'\'' => self.single += 1,
            b'"' => self.double += 1,
            b'`' => self.backtick += 1,
            b'$' if next == OPENING_BRACE => self.backtick += 1,
            _ => {}
        }
    }

    // The cheapest permitted quote; at a tie the backtick, then the double quote.
    fn cheapest(&self, allow_backtick: bool) -> Quote
        requires { (self.now.single < 65536) × (self.now.double < 65536) × (self.now.lines < 65536) }
        ensures { result ≡ (if allow_backtick && nat_le self.now.backtick ((if nat_le self.now.double self.now.single then self.now.double else self.now.single) + self.now.lines) then Backtick else (if nat_le self.now.double self.now.single then Double else Single)) }
    {
        let (plain, cost) = if self.double <= self.single {
            (Quote::Double, self.double)
        } else {
            (Quote::Single, self.single)
        };
        if allow_backtick && self.backtick <= cost + self.lines {
            Quote::Backtick
        } else {
            plain
        }
    }
}

/// The quote that gives a text its shortest literal.
pub fn choose_quote(bytes: &[u8], allow_backtick: bool) -> Quote
    requires characters { encodes (code_points bytes.now) ≡ bytes.now }
    requires small { length bytes.now ≤ 16384 }
    ensures { result ≡ chosen allow_backtick (code_points bytes.now) }
{
    let mut costs = Costs::default();
    // By place, to see the next byte too.
    for (i, b) in bytes.iter().enumerate() {
        costs.add(*b, byte_at(bytes, i + 1));
    }
    costs.cheapest(allow_backtick)
}
