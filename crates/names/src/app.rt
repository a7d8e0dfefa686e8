// The name of an application: a part of the line where nothing was joined, else of lent scratch memory.
ghost use Rattle.std.specs.Prelude.{◌≡◌, ◌+◌, ◌^◌, ◌<◌, ◌∷◌, length, is_some, if◌then◌else◌, MatchOption};
ghost use Rattle.std.specs.Option.{option_map};
ghost use Rattle.words.specs.Words.{ahead, first_of, rest_of};
ghost use Rattle.names.specs.AppNames.{NameFound, named, children, child_words, name_read, name_said, placed_in, scratch_after};
ghost use Rattle.names.specs.Writing.{laid_at, tail};

use ids::is_id;
use words::Words;

// A name as it was read: its first word, and how many bytes it has where more words were joined to that. A joined name itself is in
// scratch memory, which is lent by a rule of the project, so only its length is here.
#[derive(Clone, Copy)]
pub struct AppName<'a> {
    pub first: &'a [u8],
    pub joined: Option<usize>,
}

impl<'a> AppName<'a> {
    // The name itself, from the line or from the scratch memory that it was read with: none where that is too short for it.
    pub fn text<'s>(&self, scratch: &'s [u8]) -> Option<&'s [u8]>
    where
        'a: 's,
        ensures { option_map (λ x. x.now) result ≡ placed_in self.now.first.now self.now.joined scratch.now }
    {
        match self.joined {
            None => Some(self.first),
            Some(n) => scratch.get(..n),
        }
    }
}

// A name written piece by piece into lent memory, as far as it fits: `end` is where it ends.
#[derive(Drop)]
struct Joiner<'s> {
    scratch: &'s mut [u8],
    end: usize,
}

impl<'s> Joiner<'s> {
    // Writes `part` behind what is there.
    fn put(&mut self, part: &[u8])
        requires { self.old.end + length part.now < 2 ^ 64 }
        ensures same { self.new.scratch.ghost_name ≡ self.old.scratch.ghost_name }
        ensures end { self.new.end ≡ self.old.end + length part.now }
        ensures written { self.new.scratch.now ≡ laid_at self.old.end part.now self.old.scratch.now }
    {
        let start = self.end.min(self.scratch.len());
        let n = part.len().min(self.scratch.len() - start);
        self.scratch[start..start + n].copy_from_slice(&part[..n]);
        self.end += part.len();
    }
}

// The next word of the name: none where the next word reads as an identifier, and at the end of the line.
fn next_of_name<'a>(words: &mut Words<'a>) -> Option<&'a [u8]>
    ensures word { option_map (λ x. x.now) result ≡ first_of (named (ahead words.old.left)) }
    ensures rest { named (ahead words.new.left) ≡ rest_of (named (ahead words.old.left)) }
    ensures same { children (ahead words.new.left) ≡ children (ahead words.old.left) }
    ensures ended { MatchOption result (ahead words.new.left ≡ children (ahead words.old.left)) (λ w. ahead words.old.left ≡ w.now ∷ ahead words.new.left) }
    ensures number { words.new.number ≡ words.old.number + (if is_some result then 1 else 0) }
{
    let mut look = *words;
    let word = look.next().filter(|word| !is_id(word))?;
    *words = look;
    Some(word)
}

// Writes the other words of the name, each after a space, and the bar. `words` moves on to the first child.
fn join_rest(words: &mut Words<'_>, out: &mut Joiner<'_>)
    requires { out.old.end + length (tail (named (ahead words.old.left))) < 2 ^ 64 }
    ensures same { out.new.scratch.ghost_name ≡ out.old.scratch.ghost_name }
    ensures end { out.new.end ≡ out.old.end + length (tail (named (ahead words.old.left))) }
    ensures written { out.new.scratch.now ≡ laid_at out.old.end (tail (named (ahead words.old.left))) out.old.scratch.now }
    ensures rest { ahead words.new.left ≡ children (ahead words.old.left) }
    ensures number { words.new.number + length (ahead words.new.left) ≡ words.old.number + length (ahead words.old.left) }
{
    while let Some(word) = next_of_name(words) {
        out.put(b" ");
        out.put(word);
    }
    out.put(b"|");
}

// Reads the name of an application, whose first word comes next: none where there is no word. Where words are joined, the joined name
// is written into `scratch` as far as it fits; its length is told in full. `words` moves on to the first child.
pub fn parse_app_name<'a>(words: &mut Words<'a>, scratch: &mut [u8]) -> Option<AppName<'a>>
    ensures value { option_map name_said result ≡ name_read (ahead words.old.left) }
    ensures written { scratch.new ≡ scratch_after (ahead words.old.left) scratch.old }
    ensures rest { ahead words.new.left ≡ child_words (ahead words.old.left) }
    ensures number { words.new.number + length (ahead words.new.left) ≡ words.old.number + length (ahead words.old.left) }
    ensures found { NameFound (ahead words.old.left) scratch.old }
{
    let first = words.next()?;
    let Some(second) = next_of_name(words) else {
        return Some(AppName {
            first,
            joined: None,
        });
    };
    let mut name = Joiner { scratch, end: 0 };
    name.put(b"|");
    name.put(first);
    name.put(b" ");
    name.put(second);
    join_rest(words, &mut name);
    Some(AppName {
        first,
        joined: Some(name.end),
    })
}
