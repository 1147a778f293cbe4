//! An answer in one number.
ghost use Rattle.std.specs.Prelude.{◌≡◌, ◌<◌};
ghost use Rattle.refusal.specs.Returned.{returned_length};
ghost use Rattle.codegen.specs.Checked.{tells};
ghost use Rattle.capi.specs.Answers.{packed};

use codegen::PrintFault;
use refusal::Refusal;

/// How many values an answer's lower half has.
const HALF: u64 = 0x1_0000_0000;

/// The number of an answer, and its value: what a refusal tells, else the printed length.
pub fn packed_answer(answer: Result<usize, PrintFault>) -> u64
    requires value_fits { (returned_length tells answer).value < 4294967296 }
    ensures is_number_and_value { result ≡ packed (returned_length tells answer) }
{
    match answer {
        Ok(printed) => printed as u64,
        Err(fault) => {
            let refusal = Refusal::from(fault);
            refusal.number as u64 * HALF + refusal.amount() as u64
        }
    }
}
