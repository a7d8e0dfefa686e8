// Signs taken off the ends of a text, and the pieces of a word.
ghost use Rattle.std.specs.Prelude.{◌≡◌};
ghost use Rattle.std.specs.Option.{option_map, option_zip};
ghost use Rattle.words.specs.Words.{split_by};
ghost use Rattle.pairs.specs.Texts.{bars_off, end_off, front_off, parts_said, semicolon, two_of};

// `(` off the first part's front and `)` off the second part's end.
#[tactic(auto, using(crate::proofs::Ends::end_stripped))]
pub(super) fn without_brackets<'a>(parts: (&'a [u8], &'a [u8])) -> Option<(&'a [u8], &'a [u8])>
    ensures { option_map parts_said result ≡ option_zip (front_off 40 parts.entry.0.now) (end_off 41 parts.entry.1.now) }
{
    Some((parts.0.strip_prefix(b"(")?, parts.1.strip_suffix(b")")?))
}

// A bar off each end: a single bar has no second one.
#[tactic(auto, using(crate::proofs::Ends::end_stripped))]
fn without_bars(text: &[u8]) -> Option<&[u8]>
    ensures { option_map (λ x. x.now) result ≡ bars_off text.now }
{
    text.strip_prefix(b"|")?.strip_suffix(b"|")
}

pub(super) fn both_without_bars<'a>(parts: (&'a [u8], &'a [u8])) -> Option<(&'a [u8], &'a [u8])>
    ensures { option_map parts_said result ≡ option_zip (bars_off parts.entry.0.now) (bars_off parts.entry.1.now) }
{
    Some((without_bars(parts.0)?, without_bars(parts.1)?))
}

// The first two pieces of a word between `;` signs: none where it has no `;`.
pub(super) fn two_pieces(word: &[u8]) -> Option<(&[u8], &[u8])>
    ensures { option_map parts_said result ≡ two_of (split_by semicolon word.now) }
{
    let mut pieces = word.split(|b| *b == b';');
    Some((pieces.next()?, pieces.next()?))
}
