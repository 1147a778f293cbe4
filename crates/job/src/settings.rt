//! What stands behind `options` and `limit`.
ghost use Rattle.std.specs.Prelude.{◌≡◌, true};
ghost use Rattle.job.specs.Settings.{Taken, once, with_name, options_of, with_digit, number_from, limit_of};

use crate::bytes::{Words, is_text};
use crate::faults::Expected;
use options::CodegenOptions;

/// The largest quota that a job may set.
// A rule of jobs, which happens to be a buffer's greatest limit too.
pub const MAX_LIMIT: usize = 65_536;

/// Sets the option, which was not set before.
fn set_once(option: &mut bool) -> Result<(), Expected>
    ensures not_twice { Taken (once option.old true) result option.new }
{
    if *option {
        return Err(Expected::OptionOnce);
    }
    *option = true;
    Ok(())
}

/// Sets the option of this name.
// A chain of texts: see `is_text`.
fn set_by_name(options: &mut CodegenOptions, name: &[u8]) -> Result<(), Expected>
    ensures a_known_one_set_once { Taken (with_name options.old name.now) result options.new }
{
    if is_text(name, "single_quote") {
        set_once(&mut options.single_quote)
    } else if is_text(name, "minify") {
        set_once(&mut options.minify)
    } else if is_text(name, "ascii_only") {
        set_once(&mut options.ascii_only)
    } else {
        Err(Expected::OptionName)
    }
}

/// The options that a line names.
pub fn options_of(text: &[u8]) -> Result<CodegenOptions, Expected>
    ensures each_word_in_turn { result ≡ options_of text.now }
{
    let mut options = CodegenOptions::NONE;
    for name in Words::of(text) {
        set_by_name(&mut options, name)?;
    }
    Ok(options)
}

/// The quota that a line gives, in decimal.
pub fn limit_of(text: &[u8]) -> Result<usize, Expected>
    ensures one_number_up_to_the_largest { result ≡ limit_of text.now }
{
    let mut words = Words::of(text);
    let (Some(digits), None) = (words.next(), words.next()) else {
        return Err(Expected::LimitNumber);
    };
    number_of(digits).ok_or(Expected::LimitNumber)
}

/// The number that decimal digits write, up to `MAX_LIMIT`.
fn number_of(digits: &[u8]) -> Option<usize>
    ensures digit_by_digit { result ≡ number_from 0 digits.now }
{
    digits.iter().copied().try_fold(0, with_digit)
}

/// The number with one more decimal digit behind it, where it is one and the number stays within `MAX_LIMIT`.
fn with_digit(number: usize, b: u8) -> Option<usize>
    ensures ten_times_and_the_digit { result ≡ with_digit number b }
{
    let digit = char::from(b).to_digit(10)?;
    let longer = number.checked_mul(10)?.checked_add(digit as usize)?;
    (longer <= MAX_LIMIT).then_some(longer)
}
