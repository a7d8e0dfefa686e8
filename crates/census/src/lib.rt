// A count of the lines of a trace by their kinds.
#![tactic(auto)]

mod count;
mod record;
#[cfg(test)]
mod tests;

pub use count::{classify, count_lines};
pub use record::{BadId, Census, IdCause, LineClass};
