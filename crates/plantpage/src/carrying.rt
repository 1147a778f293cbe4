//! Carries out one call.
ghost use Rattle.std.specs.Prelude.{◌≡◌};
ghost use Rattle.refusal.specs.Returned.{returned_length};
ghost use Rattle.codegen.specs.Checked.{tells};
ghost use Rattle.plantpage.specs.Answers.{call_answer, held_after};
ghost use Rattle.plantpage.specs.Items.{item_of};

use crate::items::Item;
use buffer::CodeBuffer;
use codegen::PrintFault;
use job::Call;
use options::CodegenOptions;
use text::JSStr;

/// Prints the call's text as one item of the page, and answers how many bytes that took.
pub fn carry_out<B: CodeBuffer>(
    code: &mut B,
    options: CodegenOptions,
    call: Call,
) -> Result<usize, PrintFault>
    ensures answers_zero_or_the_refusal { returned_length tells result ≡ call_answer call.bytes.items call.lone (B.CodeBuffer.bytes code.old) (B.CodeBuffer.limit_of code.old) (item_of options call.kind call.bytes.items) }
    ensures sets_the_item_or_leaves_the_page { B.CodeBuffer.bytes code.new ≡ held_after call.bytes.items call.lone (B.CodeBuffer.bytes code.old) (B.CodeBuffer.limit_of code.old) (item_of options call.kind call.bytes.items) }
    ensures limit_stays { B.CodeBuffer.limit_of code.new ≡ B.CodeBuffer.limit_of code.old }
{
    let Call { kind, bytes, lone } = call;
    let text = JSStr::new(bytes, lone)?;
    let before = code.held();
    let item = Item {
        options,
        kind,
        text: &text,
    };
    item.print(code)?;
    Ok(code.held() - before)
}
