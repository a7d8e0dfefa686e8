ghost use Rattle.std.specs.Prelude.{◌≡◌, ℕ, Bool};
ghost use Rattle.keys.specs.Keys.{Lawful};

// A kind of key: an equality, which is an equivalence, and for every seed a hash, which equal keys share.
pub trait Key: Copy {
    ghost alike: { Self → Self → Bool };

    // The hash of a key under a seed.
    ghost code: { ℕ → Self → ℕ };

    // What each kind of key shows, whatever the seed.
    ghost laws: { (seed : ℕ) → Lawful alike (code seed) };

    // Not `Eq`: the laws tie this equality to the hash, and each promise of a table names it; over `Eq` all of them would speak of a member
    // of another trait, and each impl would show as much as now.
    fn same(self, other: Self) -> bool
        ensures { result ≡ alike self other };

    fn hash_code(self, seed: u64) -> u64
        ensures { result ≡ code seed self };
}
