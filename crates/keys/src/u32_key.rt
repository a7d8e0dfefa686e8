ghost use Rattle.std.specs.Prelude.{nat_eq};
ghost use Rattle.keys.specs.Mixing.{mixed};
ghost use Rattle.keys.specs.Numbers.{number_laws};

use crate::key::Key;
use crate::mix::mix;

// Term numbers.
impl Key for u32 {
    ghost alike = { nat_eq };

    ghost code = { mixed };

    ghost laws = { number_laws };

    fn same(self, other: u32) -> bool {
        self == other
    }

    fn hash_code(self, seed: u64) -> u64 {
        mix(seed, u64::from(self))
    }
}
