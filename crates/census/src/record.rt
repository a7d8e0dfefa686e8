// What is found in the lines of a trace.
ghost use Rattle.std.specs.Prelude.{◌≡◌, Some, slice_index};
ghost use Rattle.words.specs.Kinds.{number_of};
ghost use Rattle.census.specs.declared.record.IdCause.TheVariants.{Fault};
ghost use Rattle.census.specs.Messages.{cause_message};

use ids::IdFault;
use std::error::Error;
use std::fmt;
use words::LineKind;

// Why word 1 of a line does not read as an identifier.
#[derive(Clone, Copy, PartialEq, Eq, Debug)]
pub enum IdCause {
    Missing,
    Fault(IdFault),
}

impl From<IdFault> for IdCause {
    ghost from_gives = { λ f r. r ≡ Fault f };

    fn from(f: IdFault) -> IdCause {
        IdCause::Fault(f)
    }
}

impl fmt::Display for IdCause {
    ghost output = { λ c. Some (cause_message c) };

    fn fmt<W: fmt::Write>(&self, f: &mut fmt::Formatter<W>) -> fmt::Result {
        match self {
            IdCause::Missing => write!(f, "is missing"),
            IdCause::Fault(fault) => write!(f, "{fault}"),
        }
    }
}

impl Error for IdCause {}

// A line, counted from 0, whose word 1 does not read as an identifier.
#[derive(Clone, Copy, PartialEq, Eq, Debug)]
pub struct BadId {
    pub line: usize,
    pub cause: IdCause,
}

// What a line is taken for.
#[derive(Clone, Copy, PartialEq, Eq, Debug)]
pub enum LineClass {
    TooLong,
    Unknown,
    Known(LineKind),
}

// How many lines there are of each sort. `kinds` goes by the number of the kind.
#[derive(Clone, Copy, Default)]
pub struct Census {
    pub lines: usize,
    pub kinds: [usize; 25],
    pub unknown: usize,
    pub too_long: usize,
    pub good_ids: usize,
    pub bad_ids: usize,
}

impl Census {
    // How many lines there are of a kind.
    pub fn of_kind(&self, kind: LineKind) -> usize
        ensures { result ≡ slice_index self.now.kinds (number_of kind) }
    {
        self.kinds[usize::from(kind)]
    }
}
