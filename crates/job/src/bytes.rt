//! Cuts text into lines, and lines into words.
ghost use Rattle.std.specs.Prelude.{◌≡◌, ℕ, Bool};
ghost use Rattle.std.specs.List.{before_first};
ghost use Rattle.std.specs.Str.{bytes_eq};
ghost use Rattle.job.specs.Lines.{TestsBy, blank, from_first, word, behind, words, first_ink, ignored};
ghost use Rattle.job.specs.WordsLeft.{words_left};

/// The byte that ends a line.
pub const LINE_FEED: u8 = b'\n';

/// The byte that a comment begins with.
const COMMENT: u8 = b'#';

/// Whether the byte is a space or a tab.
pub fn is_blank(b: &u8) -> bool
    ensures a_space_or_a_tab { result ≡ blank b.now }
{
    *b == b' ' || *b == b'\t'
}

/// Whether the bytes are those of the text.
// A `match` on byte strings would leave a goal at each byte where it may end, and the check closes none of them.
pub fn is_text(bytes: &[u8], text: &str) -> bool
    ensures byte_for_byte { result ≡ bytes_eq bytes.now text.now }
{
    bytes == text.as_bytes()
}

/// What stands before the first byte that passes, and the rest from that byte on.
pub fn split_before<P: Fn(&u8) -> bool>(text: &[u8], passes: P) -> (&[u8], &[u8])
    ghost test: { ℕ → Bool }
    requires tests_any_byte { P.IsAlwaysCallable passes }
    requires by { TestsBy P.Fn test passes }
    ensures before_the_first { result.0.now ≡ before_first test text.now }
    ensures from_the_first { result.1.now ≡ from_first test text.now }
{
    let place = text.iter().position(|b| passes(b));
    text.split_at(place.unwrap_or(text.len()))
}

/// The first word of the line, and what follows behind the blank that ends it.
pub fn cut_word(line: &[u8]) -> (&[u8], &[u8])
    ensures up_to_the_first_blank { result.0.now ≡ word line.now }
    ensures behind_it { result.1.now ≡ behind line.now }
{
    let (word, rest) = split_before(line, is_blank);
    match rest {
        [] => (word, rest),
        [_, argument @ ..] => (word, argument),
    }
}

/// The words of a line, one after the other.
#[derive(Clone, Copy)]
pub struct Words<'a> {
    left: &'a [u8],
}

impl<'a> Words<'a> {
    pub fn of(line: &'a [u8]) -> Words<'a>
        ensures all_of_the_line { words_left result ≡ words line.now }
    {
        Words { left: line }
    }
}

impl<'a> Iterator for Words<'a> {
    ghost use Rattle.std.specs.Iterator.{YieldsFirstBy, item_count};
    ghost use Rattle.job.specs.WordsLeft.{words_left};

    type Item = &'a [u8];

    ghost next_gives = { YieldsFirstBy (λ word. word.now) words_left };

    ghost remaining = { item_count words_left };

    fn next(&mut self) -> Option<&'a [u8]> {
        let (_, inked) = split_before(self.left, |b| !is_blank(b));
        let (word, left) = cut_word(inked);
        self.left = left;
        if word.is_empty() { None } else { Some(word) }
    }
}

/// The first byte that is no blank.
fn first_ink(line: &[u8]) -> Option<u8>
    ensures the_first { result ≡ first_ink line.now }
{
    line.iter().copied().find(|b| !is_blank(b))
}

/// Whether the line says nothing: it is blank, or a comment.
pub fn is_ignored(line: &[u8]) -> bool
    ensures blank_or_comment { result ≡ ignored line.now }
{
    first_ink(line).is_none_or(|b| b == COMMENT)
}
