// The whole list of pairs on a line.
ghost use Rattle.std.specs.Prelude.{◌≡◌, ◌+◌, drop, OnOk};
ghost use Rattle.std.specs.Result.{result_map_both};
ghost use Rattle.words.specs.Words.{ahead};
ghost use Rattle.pairs.specs.Forms.{words_in};
ghost use Rattle.pairs.specs.Law.{ListsBack};
ghost use Rattle.pairs.specs.Names.{entry_read, list_kind, names_read, names_said};
ghost use Rattle.pairs.specs.Texts.{parts_said};

use super::reading::read_pair;
use super::sorting::sort_pair;
use super::types::{Form, NameForm, NamesText, PairRefusal};
use words::Words;

// A list whose first pair has no first part is one of types.
fn list_kind(first: &[u8]) -> NameForm
    ensures { result ≡ list_kind first.now }
{
    if first.is_empty() {
        NameForm::TypeOnly
    } else {
        NameForm::NameAndType
    }
}

// Reads the next pair of a list whose first pair has the form `form`, and sorts its parts.
fn next_entry<'a>(
    words: &mut Words<'a>,
    form: Form,
    kind: NameForm,
) -> Result<(&'a [u8], &'a [u8]), PairRefusal>
    ensures value { result_map_both parts_said (λ e. e) result ≡ entry_read form kind words.old.number (ahead words.old.left) }
    ensures rest { OnOk result (ahead words.new.left ≡ drop (words_in form) (ahead words.old.left)) }
    ensures number { OnOk result (words.new.number ≡ words.old.number + words_in form) }
{
    let word = words.number();
    let pair = read_pair(words, Some(form), true)?;
    sort_pair(kind, pair.parts).map_err(|fault| fault.at(word))
}

// Reads all the pairs that are left on a line, which must be written in one form, and tells how many there are. The first pair says
// whether they are types or names and types.
#[tactic(auto, using(crate::proofs::Written::lists_back, crate::proofs::Entries::list_steps))]
pub fn check_var_names(words: Words<'_>) -> Result<NamesText, PairRefusal>
    ensures value { result ≡ result_map_both names_said (λ e. e) (names_read words.entry.number (ahead words.entry.left)) }
    ensures back { ListsBack }
{
    let mut look = words;
    let first = read_pair(&mut look, None, true)?;
    let form = list_kind(first.parts.0);
    let mut cursor = words;
    let mut pairs: usize = 0;
    // A loop: a pair takes one to three words and the first fault ends it, so no iterator of words serves.
    while cursor.rest_of_line().is_some() {
        let _entry = next_entry(&mut cursor, first.form, form)?;
        pairs += 1;
    }
    Ok(NamesText { form, pairs })
}
