ghost use Rattle.std.specs.Prelude.{◌≡◌};
ghost use Rattle.index.specs.Found.{found_or, either_result};

use crate::map::TermIdToIdxMap;
use idents::ident::Ident;

// One of two: what was found, or what stands for it.
// Not a Result: a rule of the project keeps this name and its two variants.
#[derive(Clone, Copy)]
pub enum Either<T, U> {
    Left(T),
    Right(U),
}

impl<T, U> Either<T, U> {
    pub fn into_result(self) -> Result<T, U>
        ensures { result ≡ either_result self }
    {
        match self {
            Either::Left(t) => Ok(t),
            Either::Right(u) => Err(u),
        }
    }
}

// The record number of an identifier; where none is held, the identifier itself, for a refusal to tell.
pub fn find_term<I: TermIdToIdxMap>(index: &I, id: Ident) -> Either<u32, Ident>
    ensures { I.TermIdToIdxMap.sound index.now → result ≡ found_or ((I.TermIdToIdxMap.means index.now).find id) id }
{
    match index.get_term(id) {
        Some(number) => Either::Left(number),
        None => Either::Right(id),
    }
}
