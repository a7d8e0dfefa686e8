// The parts of a pair sorted into types or names.
ghost use Rattle.std.specs.Prelude.{◌≡◌};
ghost use Rattle.std.specs.Result.{result_map_both};
ghost use Rattle.pairs.specs.Texts.{parts_said};
ghost use Rattle.pairs.specs.Pairs.{sorted};

use super::strip::both_without_bars;
use super::types::{NameForm, PairFault};

// The parts of a pair as they are kept. In a list of types the first part must be empty, and the second is a type as written;
// in a list of names both parts must have a bar at each end, which is taken off.
pub fn sort_pair<'a>(
    kind: NameForm,
    parts: (&'a [u8], &'a [u8]),
) -> Result<(&'a [u8], &'a [u8]), PairFault>
    ensures { result_map_both parts_said (λ e. e) result ≡ sorted kind (parts_said parts.entry) }
{
    match kind {
        NameForm::TypeOnly => {
            if parts.0.is_empty() {
                Ok(parts)
            } else {
                Err(PairFault::TypesThenName)
            }
        }
        NameForm::NameAndType => both_without_bars(parts).ok_or(PairFault::BarMissing),
    }
}
