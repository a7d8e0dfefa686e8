// A cursor over the words of a line. The words are parts of the line.
ghost use Rattle.std.specs.Prelude.{◌≡◌, ◌+◌, ◌^◌, ◌≤◌, length, drop, is_some, IfSome, if◌then◌else◌};
ghost use Rattle.std.specs.Option.{option_map};
ghost use Rattle.words.specs.Joined.{WordsApart, unwords};
ghost use Rattle.words.specs.Words.{separates, words_of, ahead, front_of, size_left};

mod next;

use std::iter;

// Space, tab, LF, FF and CR separate words.
pub fn is_separator(b: u8) -> bool
    ensures { result ≡ separates b }
{
    b.is_ascii_whitespace()
}

// Where the first `count` words of `s` end: none where it has fewer, and for no words. A word ends at a separator, the last at the end.
fn span_end(s: &[u8], count: usize) -> Option<usize>
    ensures value { result ≡ option_map length (option_map unwords (front_of count (words_of s.now))) }
    ensures bound { IfSome result (λ e. (e ≤ length s.now) × (count ≤ length (words_of s.now))) }
{
    let last = count.checked_sub(1)?;
    s.iter()
        .enumerate()
        .filter(|(_, b)| is_separator(**b))
        .map(|(i, _)| i)
        .chain(iter::once(s.len()))
        .nth(last)
}

// How many words `s` has.
fn count_words(s: &[u8]) -> usize
    ensures { result ≡ length (words_of s.now) }
{
    s.iter().filter(|b| is_separator(**b)).count() + 1
}

// What is left of a line, and the number of the word that comes next.
#[derive(Clone, Copy)]
pub struct Words<'a> {
    left: Option<&'a [u8]>,
    number: usize,
    ghost fits: { number + size_left left ≤ 2 ^ 63 },
}

impl<'a> Words<'a> {
    // A cursor before word 0. No word holds a separator, and the words joined are the line with a space for each separator.
    pub fn of(line: &'a [u8]) -> Words<'a>
        ensures words { ahead result.left ≡ words_of line.now }
        ensures number { result.number ≡ 0 }
        ensures apart { WordsApart }
    {
        Words {
            left: Some(line),
            number: 0,
        }
    }

    // The number of the word that `next` gives, or that is missing.
    pub fn number(&self) -> usize
        ensures { result ≡ self.now.number }
    {
        let upcoming = self.number;
        upcoming
    }

    // How many words the line has, those already given included.
    pub fn total(&self) -> usize
        ensures { result ≡ self.now.number + length (ahead self.now.left) }
    {
        self.number + self.left.map_or(0, count_words)
    }

    // The next `count` words as one span of the line, separators between them included: none, and nothing moves, where fewer are left,
    // and for no words.
    pub fn span(&mut self, count: usize) -> Option<&'a [u8]>
        ensures words { option_map words_of (option_map (λ x. x.now) result) ≡ front_of count (ahead self.old.left) }
        ensures rest { ahead self.new.left ≡ drop (if is_some result then count else 0) (ahead self.old.left) }
        ensures number { self.new.number ≡ self.old.number + (if is_some result then count else 0) }
    {
        let line = self.left?;
        let end = span_end(line, count)?;
        self.number += count;
        self.left = line.get(end + 1..);
        Some(&line[..end])
    }

    // What is left of the line: none once the last word is given.
    pub fn rest_of_line(&self) -> Option<&'a [u8]>
        ensures { option_map (λ x. x.now) result ≡ option_map (λ x. x.now) self.now.left }
    {
        let rest = self.left;
        rest
    }
}
