ghost use Rattle.std.specs.Prelude.{◌≡◌};
ghost use Rattle.keys.specs.Mixing.{folded, mixed};

// One round: a product whose high half comes down into the low one.
#[tactic(auto, unfolding(crate::specs::Mixing::folded))]
fn round(x: u64, factor: u64) -> u64
    ensures { result ≡ folded x factor }
{
    let y = (x ^ (x >> 32)).wrapping_mul(factor);
    y ^ (y >> 29)
}

// A word under a seed: equal words give equal numbers, and which others do depends on the seed.
#[tactic(auto, unfolding(crate::specs::Mixing::mixed))]
pub fn mix(seed: u64, word: u64) -> u64
    ensures { result ≡ mixed seed word }
{
    let x = round(word ^ seed, 0xbf58476d1ce4e5b9);
    let y = round(x.wrapping_add(seed), 0x94d049bb133111eb);
    round(y, 0xff51afd7ed558ccd)
}
