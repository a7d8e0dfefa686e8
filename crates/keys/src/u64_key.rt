ghost use Rattle.std.specs.Prelude.{nat_eq};
ghost use Rattle.keys.specs.Mixing.{mixed};
ghost use Rattle.keys.specs.Numbers.{number_laws};

use crate::key::Key;
use crate::mix::mix;

// Beside that of u32, and not one impl for all that is `Into<u64>`: a clause knows `into` as a relation, and `alike` and `code` are
// functions of the keys.
impl Key for u64 {
    ghost alike = { nat_eq };

    ghost code = { mixed };

    ghost laws = { number_laws };

    fn same(self, other: u64) -> bool {
        self == other
    }

    fn hash_code(self, seed: u64) -> u64 {
        mix(seed, self)
    }
}
