//! The words of a line: its runs of bytes that are no space.
ghost use Rattle.std.specs.Prelude.{◌≡◌, ℕ, ◌<◌, ◌≤◌, [], ◌∷◌, length, MatchOption, ◌≢◌, slice_index};
ghost use Rattle.std.specs.Iterator.{YieldsFirstRef, item_count};
ghost use Rattle.lines.specs.Words.{words};
ghost use Rattle.lines.specs.Rest.{words_left};

const SPACE: u8 = b' ';

/// The line without the spaces before its first word.
fn skip_spaces<'l>(line: &'l [u8]) -> &'l [u8]
    ensures same { words result.now ≡ words line.now }
    ensures first { slice_index result.now 0 ≢ 32 }
    ensures short { length result.now ≤ length line.now }
{
    let start = line.iter().position(|b| *b != SPACE).unwrap_or(line.len());
    &line[start..]
}

/// How many bytes at the front are no space.
fn word_len(line: &[u8]) -> usize
    ensures within { result ≤ length line.now }
    ensures before { (k : ℕ) → k < result → slice_index line.now k ≢ 32 }
    ensures found { result < length line.now → slice_index line.now result ≡ 32 }
{
    line.iter().position(|b| *b == SPACE).unwrap_or(line.len())
}

/// The first word, and the line after it; None where there is no word.
pub fn next_word<'l>(line: &'l [u8]) -> Option<(&'l [u8], &'l [u8])>
    ensures words { MatchOption result (words line.now ≡ []) (λ p. words line.now ≡ p.0.now ∷ words p.1.now) }
    ensures less { MatchOption result (0 ≤ 0) (λ p. length p.1.now < length line.now) }
{
    let front = skip_spaces(line);
    if front.is_empty() {
        return None;
    }
    let n = word_len(front);
    Some(front.split_at(n))
}

/// The words of what is left of a line, one after another.
#[derive(Clone, Copy)]
pub struct Words<'l> {
    rest: &'l [u8],
}

impl<'l> Words<'l> {
    /// The words of a line.
    pub fn new(line: &'l [u8]) -> Words<'l>
        ensures { words_left result ≡ words line.now }
    {
        Words { rest: line }
    }
}

impl<'l> Iterator for Words<'l> {
    type Item = &'l [u8];

    ghost next_gives = { YieldsFirstRef words_left };

    ghost remaining = { item_count words_left };

    fn next(&mut self) -> Option<&'l [u8]> {
        let (word, after) = next_word(self.rest)?;
        self.rest = after;
        Some(word)
    }
}

/// How many words there are.
pub fn count_words(line: &[u8]) -> usize
    ensures { result ≡ length (words line.now) }
{
    Words::new(line).count()
}
