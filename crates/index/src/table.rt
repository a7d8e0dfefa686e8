ghost use Rattle.std.specs.Prelude.{◌≡◌, min, length};
ghost use Rattle.keyed.specs.Meaning.{nothing};
ghost use Rattle.keyed.specs.Tables.{table_size, table_means, unused};
ghost use Rattle.idents.specs.Idents.{same_ident};
ghost use Rattle.index.specs.TermTables.{ident_room, TermTableSound};
ghost use Rattle.index.specs.TableLaws.{term_table_laws};

use crate::map::TermIdToIdxMap;
use idents::ident::Ident;
use keyed::room::NoRoom;
use keyed::slot::Slot;
use keyed::table::SlotTable;

// The table is an index: its capacity is the number of its slots.
impl<'a> TermIdToIdxMap for SlotTable<'a, Ident, u32> {
    ghost means = { table_means same_ident };

    ghost size = { table_size };

    ghost capacity = { λ n. n };

    ghost roomy = { ident_room };

    ghost sound = { TermTableSound };

    ghost laws = { term_table_laws };

    fn get_term(&self, id: Ident) -> Option<u32> {
        if id.is_proper() { self.get(id) } else { None }
    }

    fn room(&self, id: Ident) -> bool {
        id.is_proper() && self.has_room(id)
    }

    fn held(&self) -> usize {
        self.len()
    }

    fn register_term(&mut self, id: Ident, number: u32) -> Result<Option<u32>, NoRoom> {
        if id.is_proper() {
            self.put(id, number)
        } else {
            Err(NoRoom)
        }
    }
}

// An empty table of identifiers in the first 16,777,216 slots, whatever they held. The others are never touched.
pub fn term_table<'a>(slots: &'a mut [Slot<Ident, u32>], seed: u64) -> SlotTable<'a, Ident, u32>
    ensures sound { TermTableSound result }
    ensures empty { table_means same_ident result ≡ nothing }
    ensures size { table_size result ≡ min (length slots.old) 16777216 }
    ensures seeded { result.seed ≡ seed }
    ensures beyond { unused result.slots.now ≡ unused slots.old }
    ensures lent { result.slots.ghost_name ≡ slots.entry.ghost_name }
{
    SlotTable::new(slots, seed)
}
