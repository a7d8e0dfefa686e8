// The words of a line, texts joined from them, and the kind of a line.
#![tactic(auto)]

mod bound;
mod cursor;
mod joined;
mod kind;
#[cfg(test)]
mod tests;

pub use bound::{LONGEST_LINE, too_long};
pub use cursor::{Words, is_separator};
pub use joined::{Bars, Joined};
pub use kind::{KINDS, LineKind};
