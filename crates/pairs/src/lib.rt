// The pairs of variable names on a line that attaches them.
#![tactic(auto)]

mod listing;
mod reading;
mod sorting;
mod strip;
#[cfg(test)]
mod tests;
mod types;

pub use listing::check_var_names;
pub use reading::read_pair;
pub use sorting::sort_pair;
pub use types::{Form, NameForm, NamesText, Pair, PairFault, PairRefusal};
