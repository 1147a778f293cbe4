//! A layer that lowers the limit of the code buffer below it.
ghost use Rattle.std.specs.Prelude.{◌≡◌, length};
ghost use Rattle.buffer.specs.Kinds.{quota_limit};
ghost use Rattle.buffer.specs.KindsAreLawful.{quota_lawful};

use super::code_buffer::{BufferFault, CodeBuffer, held_after};

/// Lets the buffer below hold `limit` bytes at most.
// No invariant, here and in `LineWatch`: it would cite the bound, and then no struct over any buffer could hold layer over layer.
// The meaning keeps the limit between what is held and the limit below instead, where `new` puts it.
pub struct Quota<B: CodeBuffer> {
    below: B,
    limit: usize,
}

// What is forwarded here is forwarded in `LineWatch` too: a trait of layers would need an accessor with its law in each,
// and more text than it saves.
impl<B: CodeBuffer> CodeBuffer for Quota<B> {
    ghost bytes = { λ q. B.CodeBuffer.bytes q.below };

    ghost limit_of = { λ q. quota_limit (length (B.CodeBuffer.bytes q.below)) q.limit (B.CodeBuffer.limit_of q.below) };

    ghost memory = { λ q. B.CodeBuffer.memory q.below };

    ghost home = { λ q. B.CodeBuffer.home q.below };

    ghost laws = { quota_lawful (λ q. q.below) (λ q. q.limit) B.CodeBuffer.laws };

    ghost noted = { λ a b s. B.CodeBuffer.noted a.below b.below s };

    ghost notes = { record {
      nothing = λ q. B.CodeBuffer.notes.nothing q.below;
      joined = λ a b c s t first second. B.CodeBuffer.notes.joined a.below b.below c.below s t first second;
    } };

    fn held(&self) -> usize {
        self.below.held()
    }

    // What is held is never past this, so the limit stays where it was at the start.
    fn limit(&self) -> usize {
        self.below.held().max(self.limit.min(self.below.limit()))
    }

    fn print(&mut self, text: &[u8]) -> Result<(), BufferFault> {
        held_after(self.held(), text.len(), self.limit())?;
        self.below.print(text)
    }
}

impl<B: CodeBuffer> Quota<B> {
    /// Lays a quota over this buffer; the limit is fixed here, and never below what is held.
    pub fn new(below: B, quota: usize) -> Quota<B>
        ensures holds_the_buffer_as_it_came { result.below ≡ below }
        ensures fixes_the_limit { quota_limit (length (B.bytes result.below)) result.limit (B.limit_of result.below) ≡ quota_limit (length (B.bytes below)) quota (B.limit_of below) }
        ensures keeps_it_as_its_own { result.limit ≡ quota_limit (length (B.bytes below)) quota (B.limit_of below) }
    {
        let limit = below.held().max(quota.min(below.limit()));
        Quota { below, limit }
    }

    /// Gives the buffer back.
    pub fn into_inner(self) -> B
        ensures gives_the_buffer_back { result ≡ self.below }
    {
        let Quota { below, limit: _ } = self;
        below
    }
}
