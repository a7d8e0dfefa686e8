ghost use Rattle.idents.specs.Idents.{same_ident, ident_code, ident_laws};

use crate::ident::Ident;
use keys::key::Key;
use keys::mix::mix;

impl Key for Ident {
    ghost alike = { same_ident };

    ghost code = { ident_code };

    ghost laws = { ident_laws };

    fn same(self, other: Ident) -> bool {
        self == other
    }

    // The order in the low half of a word and the namespace in the high one, mixed as a whole.
    fn hash_code(self, seed: u64) -> u64 {
        let namespace = self.namespace.map_or(0, |n| u64::from(n) + 1);
        mix(
            seed,
            u64::from(self.order).wrapping_add(namespace.wrapping_mul(4294967296)),
        )
    }
}
