// The makes of index put together: what is promised of a list of entries has no premise here, and does not speak of the seed.
#![tactic(auto)]

ghost use Rattle.std.specs.Prelude.{min, length};
ghost use Rattle.index.specs.TermTables.{ident_room};
ghost use Rattle.front.specs.Fronts.{front_room};
ghost use Rattle.entries.specs.Told.{Asked};

use entries::enter_and_ask;
use entries::entry::Entry;
use front::front::{Front, LOW};
use idents::ident::Ident;
use index::table::term_table;
use keyed::slot::Slot;

// Three functions and not one: each make is lent other memory.
// In a table alone.
pub fn in_table(
    slots: &mut [Slot<Ident, u32>],
    seed: u64,
    entries: &mut [Entry],
    id: Ident,
) -> Option<u32>
    ensures { Asked ident_room (min (length slots.old) 16777216) entries.old entries.new id result }
{
    let mut table = term_table(slots, seed);
    enter_and_ask(&mut table, entries, id)
}

// In a front over a table.
pub fn in_front(
    orders: &mut [Option<u32>; LOW],
    slots: &mut [Slot<Ident, u32>],
    seed: u64,
    entries: &mut [Entry],
    id: Ident,
) -> Option<u32>
    ensures { Asked (front_room ident_room) (min (length slots.old) 16777216) entries.old entries.new id result }
{
    let mut table = term_table(slots, seed);
    let mut front = Front::new(orders, &mut table);
    enter_and_ask(&mut front, entries, id)
}

// In a front over a front over a table.
pub fn in_two(
    outer: &mut [Option<u32>; LOW],
    inner: &mut [Option<u32>; LOW],
    slots: &mut [Slot<Ident, u32>],
    seed: u64,
    entries: &mut [Entry],
    id: Ident,
) -> Option<u32>
    ensures { Asked (front_room (front_room ident_room)) (min (length slots.old) 16777216) entries.old entries.new id result }
{
    let mut table = term_table(slots, seed);
    let mut below = Front::new(inner, &mut table);
    let mut front = Front::new(outer, &mut below);
    enter_and_ask(&mut front, entries, id)
}

#[cfg(test)]
mod tests {
    use super::*;

    fn entry(namespace: Option<u32>, order: u32, number: u32) -> Entry {
        Entry {
            id: Ident { namespace, order },
            number,
            taken: false,
        }
    }

    #[test]
    fn last_taken_is_found(rt: HostRuntime) {
        let mut orders = [None; LOW];
        let mut slots = [None; 2];
        let mut entries = [
            entry(Some(3), 9, 1),
            entry(None, 9, 2),
            entry(None, 5000, 3),
            entry(Some(4), 9, 4),
            entry(Some(3), 9, 5),
            entry(Some(16777216), 0, 6),
        ];
        let id = entries[0].id;
        assert_eq!(rt;
            in_front(&mut orders, &mut slots, 77, &mut entries, id),
            Some(5)
        );
        assert!(rt; entries[1].taken);
        assert!(rt; entries[2].taken);
        assert!(rt; !entries[3].taken);
        assert!(rt; entries[4].taken);
        assert!(rt; !entries[5].taken);
    }

    #[test]
    fn table_alone(rt: HostRuntime) {
        let mut slots = [None; 1];
        let mut entries = [entry(None, 9, 1), entry(None, 10, 2), entry(None, 9, 3)];
        let id = entries[0].id;
        assert_eq!(rt; in_table(&mut slots, 77, &mut entries, id), Some(3));
        assert!(rt; entries[0].taken);
        assert!(rt; !entries[1].taken);
        assert!(rt; entries[2].taken);
    }

    #[test]
    fn front_over_front(rt: HostRuntime) {
        let mut outer = [None; LOW];
        let mut inner = [Some(8); LOW];
        let mut entries = [entry(None, 4095, 1), entry(None, 4096, 2)];
        let id = entries[1].id;
        assert_eq!(rt;
            in_two(&mut outer, &mut inner, &mut [], 77, &mut entries, id),
            None
        );
        assert!(rt; entries[0].taken);
        assert!(rt; !entries[1].taken);
    }
}
