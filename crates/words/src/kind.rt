// The kind of a line, which its word 0 tells.
ghost use Rattle.std.specs.Prelude.{◌≡◌, ◌<◌, Some};
ghost use Rattle.words.specs.Kinds.{KindsByText, kind_of, number_of, text_of};

use std::fmt;

// The kinds that are known: six that are read, the end mark, and eighteen that are passed over.
#[derive(Clone, Copy, PartialEq, Eq, Debug)]
pub enum LineKind {
    ToolVersion,
    MkQuant,
    MkVar,
    MkApp,
    AttachMeaning,
    AttachVarNames,
    Eof,
    MkLambda,
    MkProof,
    AttachEnode,
    EqExpl,
    NewMatch,
    InstDiscovered,
    Instance,
    EndOfInstance,
    DecideAndOr,
    Decide,
    Assign,
    Push,
    Pop,
    BeginCheck,
    QueryDone,
    ResolveProcess,
    ResolveLit,
    Conflict,
}

pub const KINDS: [LineKind; 25] = [
    LineKind::ToolVersion,
    LineKind::MkQuant,
    LineKind::MkVar,
    LineKind::MkApp,
    LineKind::AttachMeaning,
    LineKind::AttachVarNames,
    LineKind::Eof,
    LineKind::MkLambda,
    LineKind::MkProof,
    LineKind::AttachEnode,
    LineKind::EqExpl,
    LineKind::NewMatch,
    LineKind::InstDiscovered,
    LineKind::Instance,
    LineKind::EndOfInstance,
    LineKind::DecideAndOr,
    LineKind::Decide,
    LineKind::Assign,
    LineKind::Push,
    LineKind::Pop,
    LineKind::BeginCheck,
    LineKind::QueryDone,
    LineKind::ResolveProcess,
    LineKind::ResolveLit,
    LineKind::Conflict,
];

impl LineKind {
    // Word 0 of a line of this kind.
    pub fn text(self) -> &'static str
        ensures { result.now ≡ text_of self }
    {
        match self {
            LineKind::ToolVersion => "[tool-version]",
            LineKind::MkQuant => "[mk-quant]",
            LineKind::MkVar => "[mk-var]",
            LineKind::MkApp => "[mk-app]",
            LineKind::AttachMeaning => "[attach-meaning]",
            LineKind::AttachVarNames => "[attach-var-names]",
            LineKind::Eof => "[eof]",
            LineKind::MkLambda => "[mk-lambda]",
            LineKind::MkProof => "[mk-proof]",
            LineKind::AttachEnode => "[attach-enode]",
            LineKind::EqExpl => "[eq-expl]",
            LineKind::NewMatch => "[new-match]",
            LineKind::InstDiscovered => "[inst-discovered]",
            LineKind::Instance => "[instance]",
            LineKind::EndOfInstance => "[end-of-instance]",
            LineKind::DecideAndOr => "[decide-and-or]",
            LineKind::Decide => "[decide]",
            LineKind::Assign => "[assign]",
            LineKind::Push => "[push]",
            LineKind::Pop => "[pop]",
            LineKind::BeginCheck => "[begin-check]",
            LineKind::QueryDone => "[query-done]",
            LineKind::ResolveProcess => "[resolve-process]",
            LineKind::ResolveLit => "[resolve-lit]",
            LineKind::Conflict => "[conflict]",
        }
    }

    // The kind of a line whose word 0 is `word`, none where it is no known kind. A kind is told exactly by its own text.
    pub fn of(word: &[u8]) -> Option<LineKind>
        ensures value { result ≡ kind_of word.now }
        ensures exact { KindsByText }
    {
        KINDS
            .iter()
            .copied()
            .find(|kind| word == kind.text().as_bytes())
    }
}

impl fmt::Display for LineKind {
    ghost output = { λ k. Some (text_of k) };

    fn fmt<W: fmt::Write>(&self, f: &mut fmt::Formatter<W>) -> fmt::Result {
        f.write_str(self.text())
    }
}

// The place of the kind among `KINDS`.
impl From<LineKind> for usize {
    ghost from_gives = { λ k n. (n ≡ number_of k) × (n < 25) };

    fn from(kind: LineKind) -> usize {
        kind as usize
    }
}
