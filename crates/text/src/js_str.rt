//! A text: WTF-8 bytes with an exact surrogate flag.
ghost use Rattle.std.specs.Prelude.{◌≡◌, IfOk};
ghost use Rattle.text.specs.Answers.{returned, text_answer};

use crate::checked::check_encoded;
use crate::fault::TextFault;
use crate::well_formed::Encoding;

/// The most bytes that a text has.
pub const MAX_TEXT: usize = 16384;

/// Whether these bytes with this flag are a text, or why not.
pub fn check_text(bytes: &[u8], lone: bool) -> Result<(), TextFault>
    ensures refuses_by_one_two_three_in_order { returned result ≡ text_answer bytes.now lone }
{
    let found = check_encoded(Encoding::Wtf8, MAX_TEXT, bytes)?;
    if found != lone {
        return Err(TextFault::Misflagged);
    }
    Ok(())
}

/// A text that exists is within the limit, well formed and exactly flagged.
/// It is no `Checked`, since its flag is checked with its bytes; the flag stands beside them in the format.
#[derive(Drop)]
pub struct JSStr {
    bytes: Vec<u8>,
    lone: bool,
    ghost good: { (text_answer bytes.items lone).number ≡ 0 },
}

impl JSStr {
    /// The text of these bytes with this flag. A refusal lets the bytes go.
    pub fn new(bytes: Vec<u8>, lone: bool) -> Result<JSStr, TextFault>
        ensures refuses_by_one_two_three_in_order { returned result ≡ text_answer bytes.items lone }
        ensures holds_the_bytes_and_the_flag { IfOk result (λ t. (t.bytes ≡ bytes) × (t.lone ≡ lone)) }
    {
        check_text(bytes.as_slice(), lone)?;
        Ok(JSStr { bytes, lone })
    }

    pub fn as_bytes(&self) -> &[u8]
        ensures are_the_texts { result.now ≡ self.now.bytes.items }
    {
        self.bytes.as_slice()
    }

    pub fn has_lone_surrogate(&self) -> bool
        ensures is_the_flag { result ≡ self.now.lone }
    {
        self.lone
    }
}
