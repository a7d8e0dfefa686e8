ghost use Rattle.std.specs.Prelude.{◌≡◌, ◌<◌, ◌≤◌, min, ◌||◌, length, count_by, position, is_some, Err, IfSome};
ghost use Rattle.keyed.specs.Meaning.{Entered, Finite, every_key, kept, nothing};
ghost use Rattle.keyed.specs.Refusals.{no_room};
ghost use Rattle.keyed.specs.Slots.{Probed, Probing, Probing-prop, is_free, holds_key, used, unused};

use crate::room::NoRoom;
use crate::slot::Slot;
use keys::key::Key;

// At most so many slots are used.
const MOST: usize = 16777216;

// How many slots are held.
fn count<K, V>(slots: &[Slot<K, V>]) -> usize
    ensures { result ≡ count_by (λ x. is_some x) slots.now }
{
    slots.iter().filter(|slot| slot.is_some()).count()
}

// Where a probe stops in a row: at the first slot that is free or has a key like `key`.
fn stop<K: Key, V: Copy>(slots: &[Slot<K, V>], key: K) -> Option<usize>
    ensures { result ≡ position (λ x. is_free x || holds_key K.Key.alike key x) slots.now }
{
    slots
        .iter()
        .position(|slot| slot.is_none_or(|(k, _)| key.same(k)))
}

// Where a probe for `key` ends, on its way round from the slot that the hash picks; none if it passes every slot.
fn probe<K: Key, V: Copy>(slots: &[Slot<K, V>], seed: u64, key: K) -> Option<usize>
    ensures within { IfSome result (λ at. at < length slots.now) }
    ensures ends { Probed K.Key.alike (K.Key.code seed) slots.now key result }
{
    let start = (key.hash_code(seed) as usize).checked_rem(slots.len())?;
    let (before, after) = slots.split_at(start);
    match stop(after, key) {
        Some(steps) => Some(start + steps),
        None => stop(before, key),
    }
}

// An open-addressed table in the caller's slots. Where a key's probe begins depends on the seed; what the table means doesn't.
#[derive(Drop)]
pub struct SlotTable<'a, K: Key, V> {
    slots: &'a mut [Slot<K, V>],
    seed: u64,
    pub ghost sound: { Probing K.Key.alike (K.Key.code seed) (used slots.now) } by { Probing-prop K.Key.alike (K.Key.code seed) (used slots.now) },
}

impl<'a, K: Key, V: Copy> SlotTable<'a, K, V> {
    ghost use Rattle.keyed.specs.Tables.{table_size, table_means, room_for};

    // An empty table in the first 16,777,216 slots, whatever they held. The others are never touched.
    pub fn new(slots: &'a mut [Slot<K, V>], seed: u64) -> Self
        ensures empty { table_means K.Key.alike result ≡ nothing }
        ensures size { table_size result ≡ min (length slots.old) 16777216 }
        ensures seeded { result.seed ≡ seed }
        ensures beyond { unused result.slots.now ≡ unused slots.old }
        ensures lent { result.slots.ghost_name ≡ slots.entry.ghost_name }
    {
        let n = MOST.min(slots.len());
        slots[..n].fill(None);
        SlotTable { slots, seed }
    }

    // The slots of the table's own.
    #[tactic(auto, using(std::proofs::lemmas::List::take_min))]
    fn used(&self) -> &[Slot<K, V>]
        ensures value { result.now ≡ used self.now.slots.now }
        ensures within { length result.now ≤ length self.now.slots.now }
    {
        &self.slots[..MOST.min(self.slots.len())]
    }

    // How many keys are held: a list without repeats, of that length, has exactly those that have a value.
    pub fn len(&self) -> usize
        ensures value { result ≡ (table_means K.Key.alike self.now).count }
        ensures counted { Finite K.Key.alike every_key (kept (table_means K.Key.alike self.now)) }
    {
        count(self.used())
    }

    // The value of a key, or none.
    pub fn get(&self, key: K) -> Option<V>
        ensures { result ≡ (table_means K.Key.alike self.now).find key }
    {
        let slots = self.used();
        let at = probe(slots, self.seed, key)?;
        slots[at].map(|(_, v)| v)
    }

    // Whether `put` would take the key.
    pub fn has_room(&self, key: K) -> bool
        ensures { result ≡ room_for K.Key.alike self.now key }
    {
        probe(self.used(), self.seed, key).is_some()
    }

    // Gives that key alone the value, and answers the displaced one. Without room the table stays as it is, as a value.
    pub fn put(&mut self, key: K, value: V) -> Result<Option<V>, NoRoom>
        ensures fixed { table_size self.new ≡ table_size self.old }
        ensures entered { Entered K.Key.alike (room_for K.Key.alike self.old key) key value no_room (table_means K.Key.alike self.old) (table_means K.Key.alike self.new) result }
        ensures refused { result ≡ Err no_room → self.new ≡ self.old }
        ensures seeded { self.new.seed ≡ self.old.seed }
        ensures beyond { unused self.new.slots.now ≡ unused self.old.slots.now }
        ensures lent { self.new.slots.ghost_name ≡ self.old.slots.ghost_name }
    {
        let seed = self.seed;
        let Some(at) = probe(self.used(), seed, key) else {
            return Err(NoRoom);
        };
        // Read and then written: `replace` on an element of a type with an invariant is not covered yet.
        let old = self.slots[at].map(|(_, v)| v);
        self.slots[at] = Some((key, value));
        Ok(old)
    }
}
