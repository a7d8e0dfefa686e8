// The count over all lines of a file.
ghost use Rattle.std.specs.Prelude.{◌≡◌};
ghost use Rattle.std.specs.Result.{result_err};
ghost use Rattle.census.specs.Counts.{class_of, names_id, word_cause};
ghost use Rattle.census.specs.Found.{CensusOf};
ghost use Rattle.lines.specs.Lines.{lines_of};
ghost use Rattle.census.specs.Steps.{OneMore, Small};
ghost use Rattle.words.specs.Words.{first_of, rest_of, words_of};

use super::record::{BadId, Census, IdCause, LineClass};
use ids::{IdText, parse_id};
use lines::{LineMode, Lines};
use words::{LineKind, Words, too_long};

// What a line is taken for: its bound first, then its kind.
pub fn classify(line: &[u8]) -> LineClass
    ensures { result ≡ class_of line.now }
{
    if too_long(line) {
        return LineClass::TooLong;
    }
    Words::of(line)
        .next()
        .and_then(LineKind::of)
        .map_or(LineClass::Unknown, LineClass::Known)
}

// Whether word 1 of such a line is an identifier.
fn names_id(kind: LineKind) -> bool
    ensures { result ≡ names_id kind }
{
    matches!(
        kind,
        LineKind::MkQuant
            | LineKind::MkVar
            | LineKind::MkApp
            | LineKind::AttachMeaning
            | LineKind::AttachVarNames
            | LineKind::MkLambda
            | LineKind::MkProof
            | LineKind::AttachEnode
    )
}

// Word 1, read as an identifier.
fn word_1(line: &[u8]) -> Result<IdText<'_>, IdCause>
    ensures { result_err result ≡ word_cause (first_of (rest_of (words_of line.now))) }
{
    let word = Words::of(line).nth(1).ok_or(IdCause::Missing)?;
    Ok(parse_id(word)?)
}

// One line more. A bad identifier is told behind those before it, where the memory still has a place for it.
#[tactic(auto, using(crate::proofs::Places::laid_none))]
fn note(found: &mut Census, line: &[u8], bad: &mut [BadId])
    requires { Small found.old }
    ensures { OneMore line.now found.old found.new bad.old bad.new }
{
    let at = found.lines;
    found.lines += 1;
    match classify(line) {
        LineClass::TooLong => found.too_long += 1,
        LineClass::Unknown => found.unknown += 1,
        LineClass::Known(kind) => {
            found.kinds[usize::from(kind)] += 1;
            if names_id(kind) {
                match word_1(line) {
                    Ok(_) => found.good_ids += 1,
                    Err(cause) => {
                        // tested by the place: what `get_mut` promises says nothing of the elements
                        if found.bad_ids < bad.len() {
                            bad[found.bad_ids] = BadId { line: at, cause };
                        }
                        found.bad_ids += 1;
                    }
                }
            }
        }
    }
}

// Counts the lines of a file. The first bad identifiers are told in `bad`, as many as fit: it is lent, by a rule of the project, and the
// count of all says how many of its places are told.
pub fn count_lines(bytes: &[u8], mode: LineMode, bad: &mut [BadId]) -> Census
    ensures { CensusOf (lines_of mode bytes.now) result bad.old bad.new }
{
    let mut found = Census::default();
    for line in Lines::of(bytes, mode) {
        note(&mut found, line, bad);
    }
    found
}
