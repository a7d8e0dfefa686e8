// Small numbers and identifiers.
#![tactic(auto)]

mod id;
mod number;
#[cfg(test)]
mod tests;

pub use id::{IdFault, IdText, is_id, parse_id};
pub use number::{LARGEST_SMALL, NumberFault, parse_number, parse_small};
