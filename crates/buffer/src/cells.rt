//! What the buffers over cells of memory share.
ghost use Rattle.std.specs.Prelude.{◌≡◌, ◌≤◌, length, take, drop};
ghost use Rattle.std.specs.Result.{result_unwrap_or};
ghost use Rattle.buffer.specs.Meaning.{count_after, printed};

use super::code_buffer::{BufferFault, held_after};

/// Appends the text to the first `held` of the cells, and tells how many are held then; or refuses it.
#[tactic(auto, using(std::proofs::lemmas::Slice::overwrites))]
pub fn append(
    cells: &mut [u8],
    held: usize,
    limit: usize,
    text: &[u8],
) -> Result<usize, BufferFault>
    requires held_is_within { held ≤ limit }
    requires limit_is_within { limit ≤ length cells.old }
    ensures counts_or_answers_seven_with_the_need { result ≡ count_after held (length text.now) limit }
    ensures appends_all_or_nothing { take (result_unwrap_or result held) cells.new ≡ printed (take held cells.old) limit text.now }
    ensures beyond_is_untouched { drop (result_unwrap_or result held) cells.new ≡ drop (result_unwrap_or result held) cells.old }
{
    let need = held_after(held, text.len(), limit)?;
    cells[held..need].copy_from_slice(text);
    Ok(need)
}
