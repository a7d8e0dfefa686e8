// A list of entries in a fresh table, at every kind of key; the tests are at 64-bit numbers and at term numbers.
#![tactic(auto)]

ghost use Rattle.std.specs.Prelude.{◌≡◌, min, length};
ghost use Rattle.keyed.specs.Meaning.{nothing};
ghost use Rattle.keyed.specs.Tables.{unused, table_means};
ghost use Rattle.numbers.specs.Filled.{entered_all};

use keyed::slot::Slot;
use keyed::table::SlotTable;
use keys::key::Key;

// A fresh table in the slots, and each entered in turn; those without room are left out.
fn filled<'a, K: Key, V: Copy>(
    slots: &'a mut [Slot<K, V>],
    seed: u64,
    entries: &[(K, V)],
) -> SlotTable<'a, K, V>
    ensures means { table_means K.Key.alike result ≡ entered_all K.Key.alike (min (length slots.old) 16777216) nothing entries.now }
    ensures beyond { unused result.slots.now ≡ unused slots.old }
    ensures lent { result.slots.ghost_name ≡ slots.entry.ghost_name }
{
    let mut table = SlotTable::new(slots, seed);
    for (key, value) in entries {
        let _ = table.put(*key, *value);
    }
    table
}

// A table made in the slots, entries in it, and the value that a key then has. Slots past the 16,777,216th stay as they are.
pub fn in_table<K: Key, V: Copy>(
    slots: &mut [Slot<K, V>],
    seed: u64,
    entries: &[(K, V)],
    asked: K,
) -> Option<V>
    ensures found { result ≡ (entered_all K.Key.alike (min (length slots.old) 16777216) nothing entries.now).find asked }
    ensures beyond { unused slots.new ≡ unused slots.old }
{
    filled(slots, seed, entries).get(asked)
}

#[cfg(test)]
mod tests {
    use super::*;

    #[test]
    fn last_of_a_number_is_found(rt: HostRuntime) {
        let mut slots = [None; 4];
        let entries: [(u64, u32); 3] = [(7, 1), (8, 2), (7, 3)];
        assert_eq!(rt; in_table(&mut slots, 5, &entries, 7), Some(3));
        assert_eq!(rt; in_table(&mut slots, 5, &entries, 8), Some(2));
        assert_eq!(rt; in_table(&mut slots, 5, &entries, 9), None);
    }

    #[test]
    fn without_room_left_out(rt: HostRuntime) {
        let entries: [(u32, u32); 3] = [(7, 1), (8, 2), (7, 3)];
        assert_eq!(rt; in_table(&mut [], 5, &entries, 7), None);
        assert_eq!(rt; in_table(&mut [None], 5, &entries, 7), Some(3));
        assert_eq!(rt; in_table(&mut [None], 5, &entries, 8), None);
    }

    #[test]
    fn table_of_two(rt: HostRuntime) {
        let mut slots = [Some((1, 1)); 2];
        let mut table: SlotTable<'_, u64, u32> = SlotTable::new(&mut slots, 9);
        assert_eq!(rt; table.len(), 0);
        assert_eq!(rt; table.put(1, 10).ok(), Some(None));
        assert_eq!(rt; table.put(2, 20).ok(), Some(None));
        assert!(rt; !table.has_room(3));
        assert!(rt; table.put(3, 30).is_err());
        assert!(rt; table.has_room(2));
        assert_eq!(rt; table.put(2, 21).ok(), Some(Some(20)));
        assert_eq!(rt; table.get(2), Some(21));
        assert_eq!(rt; table.get(3), None);
        assert_eq!(rt; table.len(), 2);
    }
}
