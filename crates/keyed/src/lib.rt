// An open-addressed table in lent slots, for every kind of key.
#![tactic(auto)]

pub mod room;
pub mod slot;
pub mod table;
