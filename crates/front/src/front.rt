ghost use Rattle.std.specs.Prelude.{◌≡◌, ℕ, ◌<◌, Bool, length, None, slice_index_or};
ghost use Rattle.keyed.specs.Meaning.{nothing};
ghost use Rattle.front.specs.FrontLaws.{front_laws};
ghost use Rattle.front.specs.Fronts.{frontal, filled, front_names, front_room, low_keys, Clear};

use idents::ident::Ident;
use index::map::TermIdToIdxMap;
use keyed::room::NoRoom;

// How many low orders a front keeps itself.
pub const LOW: usize = 4096;

fn is_frontal(id: Ident) -> bool
    ensures { result ≡ frontal id }
{
    id.namespace.is_none() && (id.order as usize) < LOW
}

// How many of the low orders have a number.
fn count_low(orders: &[Option<u32>; LOW]) -> usize
    ensures { result ≡ length (low_keys (filled orders.now) 4096) }
{
    orders.iter().filter(|o| o.is_some()).count()
}

// An index that keeps the low orders without a namespace itself, and passes the rest below.
#[derive(Drop)]
pub struct Front<'a, 'b, I> {
    orders: &'a mut [Option<u32>; LOW],
    below: &'b mut I,
    ghost long: { length orders.now ≡ 4096 },
}

impl<'a, 'b, I: TermIdToIdxMap> Front<'a, 'b, I> {
    // A front over an index that holds nothing: what it promises has that as its premise, and nothing is asked of the caller.
    pub fn new(orders: &'a mut [Option<u32>; LOW], below: &'b mut I) -> Self
        ensures sound { I.TermIdToIdxMap.sound below.old → I.TermIdToIdxMap.means below.old ≡ nothing → I.TermIdToIdxMap.sound result.below.now × Clear (I.TermIdToIdxMap.means result.below.now) }
        ensures empty { I.TermIdToIdxMap.means below.old ≡ nothing → front_names result.orders.now (I.TermIdToIdxMap.means result.below.now) ≡ nothing }
        ensures size { I.TermIdToIdxMap.size result.below.now ≡ I.TermIdToIdxMap.size below.old }
        ensures over { result.below.now ≡ below.old }
    {
        *orders = [None; LOW];
        Front { orders, below }
    }
}

impl<'a, 'b, I: TermIdToIdxMap> TermIdToIdxMap for Front<'a, 'b, I> {
    ghost means = { λ s. front_names s.orders.now (I.TermIdToIdxMap.means s.below.now) };

    ghost size = { λ s. I.TermIdToIdxMap.size s.below.now };

    ghost capacity = { I.TermIdToIdxMap.capacity };

    ghost roomy = { front_room I.TermIdToIdxMap.roomy };

    ghost sound = { λ s. I.TermIdToIdxMap.sound s.below.now × Clear (I.TermIdToIdxMap.means s.below.now) };

    ghost laws = { front_laws I.TermIdToIdxMap.laws (λ s. s.orders.now) (λ s. s.below.now) };

    fn get_term(&self, id: Ident) -> Option<u32> {
        if is_frontal(id) {
            let orders = &*self.orders;
            orders[id.order as usize]
        } else {
            self.below.get_term(id)
        }
    }

    fn held(&self) -> usize {
        count_low(self.orders).saturating_add(self.below.held())
    }

    fn room(&self, id: Ident) -> bool {
        is_frontal(id) || self.below.room(id)
    }

    fn register_term(&mut self, id: Ident, number: u32) -> Result<Option<u32>, NoRoom> {
        if is_frontal(id) {
            Ok(self.orders[id.order as usize].replace(number))
        } else {
            self.below.register_term(id, number)
        }
    }
}
