// One pair, read from the words of a line.
ghost use Rattle.std.specs.Prelude.{◌≡◌, ◌+◌, drop, length, OnSome};
ghost use Rattle.std.specs.Option.{option_map};
ghost use Rattle.std.specs.Result.{result_map_both};
ghost use Rattle.words.specs.Words.{ahead};
ghost use Rattle.pairs.specs.Forms.{words_in};
ghost use Rattle.pairs.specs.Texts.{parts_said};
ghost use Rattle.pairs.specs.Law.{PairsBack};
ghost use Rattle.pairs.specs.Pairs.{told, form_ahead, missing_at, pair_answer, read_pair, parts_ahead, taken_by};

use super::strip::{two_pieces, without_brackets};
use super::types::{Form, Pair, PairFault, PairRefusal};
use words::Words;

// The form of the pair that comes next, which its first two words tell. A fault is told of the word that is missing.
#[tactic(auto, using(crate::proofs::Ends::closes_by))]
fn form_ahead(mut words: Words<'_>) -> Result<Form, PairRefusal>
    ensures { result ≡ result_map_both (λ g. g) (λ e. told e (words.entry.number + length (ahead words.entry.left)))
        (form_ahead (ahead words.entry.left)) }
{
    let first = words.next().ok_or(PairFault::NoPair.at(words.number()))?;
    if first.ends_with(b")") {
        return Ok(Form::OneWord);
    }
    let second = words.next().ok_or(PairFault::Missing.at(words.number()))?;
    if second == b";".as_slice() {
        return Ok(Form::Apart);
    }
    Ok(Form::TwoWords)
}

// The two parts of the pair that comes next, brackets included: none where a piece or a word is missing.
fn parts_ahead<'a>(words: &mut Words<'a>, found: Form) -> Option<(&'a [u8], &'a [u8])>
    ensures parts { option_map parts_said result ≡ parts_ahead found (ahead words.old.left) }
    ensures rest { OnSome result (ahead words.new.left ≡ drop (words_in found) (ahead words.old.left)) }
    ensures number { OnSome result (words.new.number ≡ words.old.number + words_in found) }
{
    let first = words.next()?;
    match found {
        Form::OneWord => two_pieces(first),
        Form::TwoWords => Some((first, words.next()?)),
        Form::Apart => {
            let _middle = words.next()?;
            Some((first, words.next()?))
        }
    }
}

// The word told where a part is missing: a pair of one word tells its own, else the number of words on the line is told.
fn missing_at(words: &Words<'_>, found: Form) -> usize
    ensures { result ≡ missing_at found words.now.number (ahead words.now.left) }
{
    match found {
        Form::OneWord => words.number(),
        Form::TwoWords | Form::Apart => words.total(),
    }
}

// Reads the pair that comes next, and takes off its brackets. `form` is the form of the first pair, where that is known; with
// `forms_equal` this pair must have it too: a yes or no of its own, by a rule of the project. `words` moves behind the pair, and stays where
// there is a fault.
#[tactic(auto, using(crate::proofs::Written::pairs_back))]
pub fn read_pair<'a>(
    words: &mut Words<'a>,
    form: Option<Form>,
    forms_equal: bool,
) -> Result<Pair<'a>, PairRefusal>
    ensures value { pair_answer result ≡ read_pair form forms_equal words.old.number (ahead words.old.left) }
    ensures rest { ahead words.new.left ≡ drop (taken_by result) (ahead words.old.left) }
    ensures number { words.new.number ≡ words.old.number + taken_by result }
    ensures back { PairsBack }
{
    let word = words.number();
    let found = form_ahead(*words)?;
    if forms_equal && form.is_some_and(|first| first != found) {
        return Err(PairFault::TwoForms.at(word));
    }
    let mut cursor = *words;
    // An `else`, so that the words of the line are counted only where a part is missing.
    let Some(parts) = parts_ahead(&mut cursor, found) else {
        return Err(PairFault::Missing.at(missing_at(words, found)));
    };
    let parts = without_brackets(parts).ok_or(PairFault::Bracket.at(word))?;
    *words = cursor;
    Ok(Pair { parts, form: found })
}
