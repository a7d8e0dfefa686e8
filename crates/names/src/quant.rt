// The name of a quantifier with its variable count.
ghost use Rattle.std.specs.Prelude.{◌≡◌, ◌+◌, not, ◌&&◌, length, if◌then◌else◌, nat_lt, Some};
ghost use Rattle.words.specs.declared.joined.Bars.TheVariants.{Bare, Both};
ghost use Rattle.words.specs.Words.{ahead};
ghost use Rattle.names.specs.Messages.{qid_message};
ghost use Rattle.names.specs.QuantNames.{left_after, name_words, qid_answer, quant_read};

use ids::{NumberFault, parse_small};
use std::error::Error;
use std::fmt;
use words::{Bars, Joined, Words};

// A quantifier's name, as a span of the line, and how many variables it binds.
#[derive(Clone, Copy)]
pub struct Qid<'a> {
    pub name: Joined<'a>,
    pub num_vars: u32,
}

// Why a line has no name with a count.
#[derive(Clone, Copy, PartialEq, Eq, Debug)]
pub enum QidFault {
    // the line ends before the count
    Missing,
    // the count's word, by its number on the line, is no small number
    Count(usize, NumberFault),
}

impl fmt::Display for QidFault {
    ghost output = { λ f. Some (qid_message f) };

    fn fmt<W: fmt::Write>(&self, f: &mut fmt::Formatter<W>) -> fmt::Result {
        match self {
            QidFault::Missing => write!(f, "no name with a count"),
            QidFault::Count(word, fault) => write!(f, "word {word} is no count: it {fault}"),
        }
    }
}

impl Error for QidFault {}

// How many words the name has, by the style of the trace's version: none where the line ends before it does.
fn name_words(mut words: Words<'_>, new_style: bool) -> Option<usize>
    ensures { result ≡ name_words new_style (ahead words.entry.left) }
{
    let first = words.next()?;
    if !new_style {
        let more = words.position(|w| parse_small(w).is_ok())?;
        return Some(more + 1);
    }
    if first.starts_with(b"|") && !first.ends_with(b"|") {
        let more = words.position(|w| w.ends_with(b"|"))?;
        return Some(more + 2);
    }
    Some(1)
}

// An old name of several words gets a bar at both ends.
fn bars_around(new_style: bool, count: usize) -> Bars
    ensures { result ≡ (if not new_style && nat_lt 1 count then Both else Bare) }
{
    if !new_style && count > 1 {
        Bars::Both
    } else {
        Bars::Bare
    }
}

// Reads a quantifier's name and its count; `words` moves on to the first child, and stays where there is a fault.
pub fn parse_qid<'a>(words: &mut Words<'a>, new_style: bool) -> Result<Qid<'a>, QidFault>
    ensures value { qid_answer result ≡ quant_read new_style words.old.number (ahead words.old.left) }
    ensures rest { ahead words.new.left ≡ left_after new_style (qid_answer result) (ahead words.old.left) }
    ensures number { words.new.number + length (ahead words.new.left) ≡ words.old.number + length (ahead words.old.left) }
{
    let mut cursor = *words;
    let count = name_words(cursor, new_style).ok_or(QidFault::Missing)?;
    let span = cursor.span(count).ok_or(QidFault::Missing)?;
    let place = cursor.number();
    let word = cursor.next().ok_or(QidFault::Missing)?;
    let num_vars = parse_small(word).map_err(|fault| QidFault::Count(place, fault))?;
    *words = cursor;
    let bars = bars_around(new_style, count);
    Ok(Qid {
        name: Joined { span, bars },
        num_vars,
    })
}
