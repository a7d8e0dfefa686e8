// What a reader of pairs tells.
ghost use Rattle.std.specs.Prelude.{◌≡◌};
ghost use Rattle.pairs.specs.Forms.{number_of};
ghost use Rattle.pairs.specs.Pairs.{told};

// How a pair is written: `(a;b)`, `(a b)` or `(a ; b)`.
#[derive(Clone, Copy, PartialEq, Eq, Debug)]
pub enum Form {
    OneWord,
    TwoWords,
    Apart,
}

// Whether a list has types only, or names and types.
#[derive(Clone, Copy, PartialEq, Eq, Debug)]
pub enum NameForm {
    TypeOnly,
    NameAndType,
}

// Why a list of pairs is refused.
#[derive(Clone, Copy, PartialEq, Eq, Debug)]
pub enum PairFault {
    // the line ends within a pair, or a pair of one word has no `;`
    Missing = 2,
    // there is no pair at all
    NoPair = 14,
    // a pair does not begin with `(`, or does not end with `)`
    Bracket = 15,
    // a pair is not written as the first one is
    TwoForms = 16,
    // a first part is not empty though the first pair's is
    TypesThenName = 17,
    // a name or its type has no bar at an end
    BarMissing = 18,
}

// The number by which a refusal is known.
impl From<PairFault> for u8 {
    ghost from_gives = { λ f n. n ≡ number_of f };

    fn from(fault: PairFault) -> u8 {
        fault as u8
    }
}

impl PairFault {
    // The refusal that tells this fault of a word.
    pub(super) fn at(self, word: usize) -> PairRefusal
        ensures { result ≡ told self word }
    {
        PairRefusal { fault: self, word }
    }
}

// A fault, and the number of the word that it is told of.
#[derive(Clone, Copy, PartialEq, Eq, Debug)]
pub struct PairRefusal {
    pub fault: PairFault,
    pub word: usize,
}

// A pair without its brackets, and how it was written. Its parts are parts of the line.
#[derive(Clone, Copy)]
pub struct Pair<'a> {
    pub parts: (&'a [u8], &'a [u8]),
    pub form: Form,
}

// A list that can be kept: how many pairs it has, and of which kind.
#[derive(Clone, Copy, PartialEq, Eq, Debug)]
pub struct NamesText {
    pub form: NameForm,
    pub pairs: usize,
}
