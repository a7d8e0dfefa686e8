// The lines of a trace file, one by one. The lines are parts of the file's bytes.
#![tactic(auto)]

ghost use Rattle.std.specs.Prelude.{◌≡◌, ◌<◌, ◌≤◌, length};
ghost use Rattle.lines.specs.Lines.{lines_of, cut_off, ahead, line_len, front, blank, opens, trimmed, ends_at, FirstEnds};
ghost use Rattle.lines.specs.Laws.{LinesStand};
ghost use Rattle.std.specs.Iterator.{YieldsFirstRef, item_count};

// How a file is cut into lines.
#[derive(Clone, Copy, PartialEq, Eq, Debug)]
pub enum LineMode {
    // Z3 writes names as they are, so a name may hold an LF. An LF ends a line only where the physical line before or after it is
    // blank, or `[` comes right after it; a CR before such an LF is taken off. A last line without LF is left out.
    Joined,
    // Every LF ends a line, and nothing else is taken off or left out.
    EachLine,
}

// How many bytes stand before the first LF.
fn line_feed(s: &[u8]) -> usize
    ensures value { result ≡ line_len s.now }
    ensures bound { result ≤ length s.now }
{
    s.iter().position(|b| *b == b'\n').unwrap_or(s.len())
}

// Whether the bytes before the first LF are all separators. A loop with the separators in a match: a chain of `take_while` and `all` over
// `is_separator` takes a third longer.
fn starts_blank(s: &[u8]) -> bool
    ensures { result ≡ blank (front s.now) }
{
    for b in s {
        match *b {
            b'\n' => return true,
            b' ' | b'\t' | 0x0c | b'\r' => {}
            _ => return false,
        }
    }
    true
}

// Whether the physical line at the front cannot go on from the one before it: it begins with `[`, or is blank.
fn opens_line(s: &[u8]) -> bool
    ensures { result ≡ opens s.now }
{
    s.starts_with(b"[") || starts_blank(s)
}

// Whether there is an LF at `at` that ends the first line, where no LF before it does. `alone` says that the physical line at the front is
// blank: only the first can be, since no line goes on into a blank one.
fn ends_at(s: &[u8], alone: bool, at: usize) -> bool
    requires { at < length s.now }
    ensures { result ≡ ends_at alone s.now at }
{
    s[at] == b'\n' && (alone || opens_line(&s[at + 1..]))
}

// How many bytes stand before the LF that ends the first line, over the LFs in names; none if no LF ends it. The search goes from LF to LF:
// a `find` that asks at each byte takes twice as long.
fn joined_end(s: &[u8]) -> Option<usize>
    ensures { FirstEnds s.now result }
{
    let alone = starts_blank(s);
    let mut from = 0;
    while from < s.len() {
        let at = from + line_feed(&s[from..]);
        if at < s.len() && ends_at(s, alone, at) {
            return Some(at);
        }
        from = at + 1;
    }
    None
}

// The line without one CR at its end.
fn without_cr(line: &[u8]) -> &[u8]
    ensures { result.now ≡ trimmed line.now }
{
    line.strip_suffix(b"\r").unwrap_or(line)
}

// The lines of what is left of a file. A copy goes on from the same place.
#[derive(Clone, Copy)]
pub struct Lines<'a> {
    left: &'a [u8],
    mode: LineMode,
}

impl<'a> Lines<'a> {
    // A cursor before the first line. What the lines are is said of the bytes at each LF.
    pub fn of(bytes: &'a [u8], mode: LineMode) -> Lines<'a>
        ensures lines { ahead result.mode result.left ≡ lines_of mode bytes.now }
        ensures cut { LinesStand }
    {
        Lines { left: bytes, mode }
    }
}

impl<'a> Iterator for Lines<'a> {
    type Item = &'a [u8];

    ghost next_gives = { YieldsFirstRef (λ s. ahead s.mode s.left) };

    ghost remaining = { item_count (λ s. ahead s.mode s.left) };

    // The next line. None if there is none, and then at every later call too.
    fn next(&mut self) -> Option<&'a [u8]> {
        let left = self.left;
        // The user picks the mode when the program runs; a type for each would only move this match to the caller.
        match self.mode {
            LineMode::Joined => {
                let Some(end) = joined_end(left) else {
                    self.left = &[];
                    return None;
                };
                self.left = &left[end + 1..];
                Some(without_cr(&left[..end]))
            }
            LineMode::EachLine => {
                if left.is_empty() {
                    return None;
                }
                let end = line_feed(left);
                self.left = &left[(end + 1).min(left.len())..];
                Some(&left[..end])
            }
        }
    }
}

// Whether bytes at the file's end are left out, since no LF ends them.
pub fn cut_off(bytes: &[u8], mode: LineMode) -> bool
    ensures { result ≡ cut_off mode bytes.now }
{
    match mode {
        LineMode::Joined => !bytes.is_empty() && !bytes.ends_with(b"\n"),
        LineMode::EachLine => false,
    }
}

#[cfg(test)]
mod tests {
    use super::*;

    // Whether these are the lines of the bytes.
    fn gives(bytes: &[u8], mode: LineMode, expected: &[&[u8]]) -> bool {
        Lines::of(bytes, mode).eq(expected.iter().copied())
    }

    #[test]
    fn joins(rt: HostRuntime) {
        let named = b"[mk-app] #1 |a\nb c|\r\n[eof]\n";
        assert!(rt;
            gives(
                named,
                LineMode::Joined,
                &[b"[mk-app] #1 |a\nb c|", b"[eof]"],
            )
        );
        let apart = b"x\n \n\ny\n[cut";
        assert!(rt; gives(apart, LineMode::Joined, &[b"x", b" ", b"", b"y"]));
        assert!(rt; gives(b"a\nb", LineMode::Joined, &[]));
    }

    #[test]
    fn takes_each(rt: HostRuntime) {
        assert!(rt; gives(b"a\r\n\nb", LineMode::EachLine, &[b"a\r", b"", b"b"]));
        assert!(rt; gives(b"a\n", LineMode::EachLine, &[b"a"]));
    }

    #[test]
    fn little(rt: HostRuntime) {
        assert!(rt; gives(b"", LineMode::Joined, &[]));
        assert!(rt; gives(b"", LineMode::EachLine, &[]));
        assert!(rt; gives(b"\n", LineMode::Joined, &[b""]));
        assert!(rt; gives(b"\n", LineMode::EachLine, &[b""]));
    }

    #[test]
    fn cuts(rt: HostRuntime) {
        assert!(rt; cut_off(b"[a]\nb", LineMode::Joined));
        assert!(rt; !cut_off(b"[a]\n", LineMode::Joined));
        assert!(rt; !cut_off(b"", LineMode::Joined));
        assert!(rt; !cut_off(b"[a]\nb", LineMode::EachLine));
    }
}
