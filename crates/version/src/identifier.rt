// The identifiers of pre-releases, in their order.
ghost use Rattle.std.specs.Prelude.{◌≡◌};
ghost use Rattle.version.specs.Ranks.{rank, rank_of};

use crate::bytes::Class;

// A number comes before a text. Numbers have no leading zeros, so more digits are a larger number.
#[derive(Clone, Copy, PartialEq, Eq, PartialOrd, Ord)]
pub enum Ident<'a> {
    // how many digits, and the digits
    Number(usize, &'a [u8]),
    Text(&'a [u8]),
}

// What a field of a pre-release says.
impl<'a> From<&'a [u8]> for Ident<'a> {
    ghost from_gives = { λ t r. rank r ≡ rank_of t.now };

    fn from(field: &'a [u8]) -> Ident<'a> {
        if Class::Digits.holds_all(field) {
            Ident::Number(field.len(), field)
        } else {
            Ident::Text(field)
        }
    }
}
