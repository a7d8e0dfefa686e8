ghost use Rattle.std.specs.Prelude.{◌≡◌, ℕ, min, Bool, false, None, Err};
ghost use Rattle.keyed.specs.Meaning.{Names, Kept, kept, Entered, IndexLaws};
ghost use Rattle.keyed.specs.Refusals.{no_room};
ghost use Rattle.idents.specs.declared.ident.Ident.{Ident};
ghost use Rattle.idents.specs.Idents.{same_ident, proper_ident};

use idents::ident::Ident;
use keyed::room::NoRoom;

// An index: at most one record number for each identifier, in a fixed size.
pub trait TermIdToIdxMap {
    // The record number found for each identifier, and how many identifiers are held.
    ghost means: { Self → Names Ident ℕ };

    // Fixed when the index is made.
    ghost size: { Self → ℕ };

    // How many identifiers an index of a size takes at least.
    ghost capacity: { ℕ → ℕ };

    // Whether an identifier has room: of the size, which identifiers are held and how many, and the identifier; so of nothing else.
    ghost roomy: { ℕ → Kept Ident → Ident → Bool };

    // What every fresh index has and every call keeps: a premise of the promises, and never asked of a caller.
    // Not an invariant of the types: a front may be made over any index, and a table may hold what no index takes.
    ghost sound: { Self → Type 0 };

    // What each make shows.
    ghost laws: { IndexLaws same_ident proper_ident means capacity roomy sound };

    // The record number of an identifier, or none.
    fn get_term(&self, id: Ident) -> Option<u32>
        ensures found { sound self.now → result ≡ (means self.now).find id }
        ensures improper { proper_ident id ≡ false → result ≡ None };

    // Whether `register_term` takes the identifier.
    fn room(&self, id: Ident) -> bool
        ensures value { sound self.now → result ≡ roomy (size self.now) (kept (means self.now)) id }
        ensures improper { proper_ident id ≡ false → result ≡ false };

    // How many identifiers are held; 18,446,744,073,709,551,615 stands for so many and more.
    fn held(&self) -> usize
        ensures { sound self.now → result ≡ min (means self.now).count 18446744073709551615 };

    // Gives that identifier alone the number, and answers the displaced one, or none.
    // Without room it is refused, and the index stays as it is, as a value.
    fn register_term(&mut self, id: Ident, number: u32) -> Result<Option<u32>, NoRoom>
        ensures keeps { sound self.old → sound self.new }
        ensures fixed { size self.new ≡ size self.old }
        ensures entered { sound self.old → Entered same_ident (roomy (size self.old) (kept (means self.old)) id) id number no_room (means self.old) (means self.new) result }
        ensures refused { result ≡ Err no_room → self.new ≡ self.old }
        ensures improper { proper_ident id ≡ false → result ≡ Err no_room };
}
