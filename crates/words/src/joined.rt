// Texts joined from words of one line, as a span of that line.
ghost use Rattle.std.specs.Prelude.{◌≡◌, ◌+◌, length};
ghost use Rattle.std.specs.List.{slice_get};
ghost use Rattle.words.specs.Joined.{as_space, front_bars, joined_text, spaces};

use super::cursor::is_separator;

// Which bars stand around a joined text.
#[derive(Clone, Copy, PartialEq, Eq, Debug)]
pub enum Bars {
    Bare,
    Front,
    Both,
}

impl Bars {
    // The bars around a front part of a text that does not reach its end.
    pub fn without_last(self) -> Bars
        ensures { result ≡ front_bars self }
    {
        match self {
            Bars::Bare => Bars::Bare,
            Bars::Front | Bars::Both => Bars::Front,
        }
    }
}

// A text: the bytes of `span` with a space for each separator, and its bars.
#[derive(Clone, Copy)]
pub struct Joined<'a> {
    pub span: &'a [u8],
    pub bars: Bars,
}

fn as_space(b: u8) -> u8
    ensures { result ≡ as_space b }
{
    if is_separator(b) { b' ' } else { b }
}

// The byte at place `i` of a span, a space for each separator.
fn spaced(s: &[u8], i: usize) -> Option<u8>
    ensures { result ≡ slice_get (spaces s.now) i }
{
    s.get(i).map(|b| as_space(*b))
}

impl<'a> Joined<'a> {
    // How many bytes the text has.
    pub fn len(&self) -> usize
        ensures { result ≡ length (joined_text self.now.bars self.now.span.now) }
    {
        match self.bars {
            Bars::Bare => self.span.len(),
            Bars::Front => self.span.len() + 1,
            Bars::Both => self.span.len() + 2,
        }
    }

    // The byte of the text at place `i`, none at and past its end.
    pub fn byte(&self, i: usize) -> Option<u8>
        ensures { result ≡ slice_get (joined_text self.now.bars self.now.span.now) i }
    {
        match (self.bars, i) {
            (Bars::Bare, _) => spaced(self.span, i),
            (_, 0) => Some(b'|'),
            (Bars::Both, _) if i == self.span.len() + 1 => Some(b'|'),
            _ => spaced(self.span, i - 1),
        }
    }
}
