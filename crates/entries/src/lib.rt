// Entries in a fresh index, whatever its make.
#![tactic(auto)]

ghost use Rattle.std.specs.Prelude.{◌≡◌, ℕ, ◌<◌, ◌≤◌, true, length};
ghost use Rattle.keyed.specs.Meaning.{nothing};
ghost use Rattle.idents.specs.Idents.{proper_ident};
ghost use Rattle.entries.specs.Told.{at, Told, ToldOnce, Asked};

use idents::ident::Ident;
use index::map::TermIdToIdxMap;

pub mod entry;

use entry::Entry;

// Enters each in turn and marks whether it was taken. Then the index finds, for each identifier, the number last entered under it.
// Within the capacity none is refused. What is told leaves nothing open (`once`): two makes of one size and one room, whatever their
// seeds, mark the same entries and find the same numbers.
pub fn enter_all<I: TermIdToIdxMap>(index: &mut I, entries: &mut [Entry])
    ensures keeps { I.TermIdToIdxMap.sound index.old → I.TermIdToIdxMap.sound index.new }
    ensures fixed { I.TermIdToIdxMap.size index.new ≡ I.TermIdToIdxMap.size index.old }
    ensures told { I.TermIdToIdxMap.sound index.old → I.TermIdToIdxMap.means index.old ≡ nothing → Told I.TermIdToIdxMap.roomy (I.TermIdToIdxMap.size index.old) entries.old entries.new (I.TermIdToIdxMap.means index.new) }
    ensures spare { I.TermIdToIdxMap.sound index.old → I.TermIdToIdxMap.means index.old ≡ nothing → ((k : ℕ) → k < length entries.old → proper_ident (at entries.old k).id ≡ true) → length entries.old ≤ I.TermIdToIdxMap.capacity (I.TermIdToIdxMap.size index.old) → (k : ℕ) → k < length entries.old → (at entries.new k).taken ≡ true }
    ensures once { ToldOnce }
{
    for entry in entries {
        entry.taken = index.register_term(entry.id, entry.number).is_ok();
    }
}

// The same, and then finds one identifier.
pub fn enter_and_ask<I: TermIdToIdxMap>(
    index: &mut I,
    entries: &mut [Entry],
    id: Ident,
) -> Option<u32>
    ensures keeps { I.TermIdToIdxMap.sound index.old → I.TermIdToIdxMap.sound index.new }
    ensures fixed { I.TermIdToIdxMap.size index.new ≡ I.TermIdToIdxMap.size index.old }
    ensures told { I.TermIdToIdxMap.sound index.old → I.TermIdToIdxMap.means index.old ≡ nothing → Told I.TermIdToIdxMap.roomy (I.TermIdToIdxMap.size index.old) entries.old entries.new (I.TermIdToIdxMap.means index.new) }
    ensures asked { I.TermIdToIdxMap.sound index.old → I.TermIdToIdxMap.means index.old ≡ nothing → Asked I.TermIdToIdxMap.roomy (I.TermIdToIdxMap.size index.old) entries.old entries.new id result }
{
    enter_all(index, entries);
    index.get_term(id)
}
