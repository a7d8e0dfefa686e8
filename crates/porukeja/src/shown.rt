// How texts of the trace are printed: a space, a backslash and every byte outside printable ASCII as \xNN, and an empty text as "".
use ids::IdText;
use std::{fmt, str};
use words::{Joined, Words};

// So many bytes are gathered before they are handed to a formatter.
const GATHERED: usize = 64;

// ASCII bytes for a formatter, which takes a piece of text at a time: a piece costs it much more than a byte.
#[derive(Drop)]
struct Gathering<'f, W> {
    to: &'f mut fmt::Formatter<W>,
    held: [u8; GATHERED],
    len: usize,
}

impl<'f, W: fmt::Write> Gathering<'f, W> {
    fn new(to: &'f mut fmt::Formatter<W>) -> Gathering<'f, W> {
        Gathering {
            to,
            held: [0; GATHERED],
            len: 0,
        }
    }

    fn hand_on(&mut self) -> fmt::Result {
        let n = self.len.min(GATHERED);
        self.len = 0;
        match str::from_utf8(&self.held[..n]) {
            Ok(text) => self.to.write_str(text),
            Err(_) => Err(fmt::Error),
        }
    }

    fn ascii(&mut self, b: u8) -> fmt::Result {
        if self.len >= GATHERED {
            self.hand_on()?;
        }
        if self.len < GATHERED {
            self.held[self.len] = b;
            self.len += 1;
        }
        Ok(())
    }

    // One byte of a text.
    fn byte(&mut self, b: u8) -> fmt::Result {
        if b.is_ascii_graphic() && b != b'\\' {
            return self.ascii(b);
        }
        self.ascii(b'\\')?;
        self.ascii(b'x')?;
        self.ascii(hex(b >> 4))?;
        self.ascii(hex(b & 0x0f))
    }

    fn text(&mut self, text: &[u8]) -> fmt::Result {
        if text.is_empty() {
            self.ascii(b'"')?;
            return self.ascii(b'"');
        }
        for b in text {
            self.byte(*b)?;
        }
        Ok(())
    }
}

fn hex(digit: u8) -> u8 {
    char::from_digit(u32::from(digit), 16).map_or(b'?', |c| c as u8)
}

// A part of a line.
#[derive(Clone, Copy)]
pub(crate) struct Shown<'a>(pub &'a [u8]);

impl<'a> fmt::Display for Shown<'a> {
    fn fmt<W: fmt::Write>(&self, f: &mut fmt::Formatter<W>) -> fmt::Result {
        let mut shown = Gathering::new(f);
        shown.text(self.0)?;
        shown.hand_on()
    }
}

// An identifier as it was read: its namespace, `#` and its number.
#[derive(Clone, Copy)]
pub(crate) struct ShownId<'a>(pub IdText<'a>);

impl<'a> fmt::Display for ShownId<'a> {
    fn fmt<W: fmt::Write>(&self, f: &mut fmt::Formatter<W>) -> fmt::Result {
        if let Some(namespace) = self.0.namespace {
            write!(f, "{}", Shown(namespace))?;
        }
        match self.0.number {
            Some(number) => write!(f, "#{number}"),
            None => f.write_str("#"),
        }
    }
}

// A text joined from words.
#[derive(Clone, Copy)]
pub(crate) struct ShownJoined<'a>(pub Joined<'a>);

impl<'a> fmt::Display for ShownJoined<'a> {
    fn fmt<W: fmt::Write>(&self, f: &mut fmt::Formatter<W>) -> fmt::Result {
        let text = self.0;
        if text.len() == 0 {
            return f.write_str("\"\"");
        }
        let mut shown = Gathering::new(f);
        for b in (0..text.len()).filter_map(|i| text.byte(i)) {
            shown.byte(b)?;
        }
        shown.hand_on()
    }
}

// The words that are left of a line, in brackets.
#[derive(Clone, Copy)]
pub(crate) struct ShownWords<'a>(pub Words<'a>);

impl<'a> fmt::Display for ShownWords<'a> {
    fn fmt<W: fmt::Write>(&self, f: &mut fmt::Formatter<W>) -> fmt::Result {
        let mut words = self.0;
        let mut shown = Gathering::new(f);
        shown.ascii(b'[')?;
        if let Some(first) = words.next() {
            shown.text(first)?;
        }
        for word in words {
            shown.ascii(b' ')?;
            shown.text(word)?;
        }
        shown.ascii(b']')?;
        shown.hand_on()
    }
}
