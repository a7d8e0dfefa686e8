// The words of a line one by one: none once the last is given.
ghost use Rattle.std.specs.Iterator.{item_count};
ghost use Rattle.words.specs.Cursor.{GivesWord};
ghost use Rattle.words.specs.Words.{ahead};

use super::{Words, is_separator};

impl<'a> Iterator for Words<'a> {
    type Item = &'a [u8];

    ghost next_gives = { GivesWord };

    ghost remaining = { item_count (λ s. ahead s.left) };

    fn next(&mut self) -> Option<&'a [u8]> {
        let line = self.left?;
        let end = line
            .iter()
            .position(|b| is_separator(*b))
            .unwrap_or(line.len());
        self.number += 1;
        self.left = line.get(end + 1..);
        Some(&line[..end])
    }
}
