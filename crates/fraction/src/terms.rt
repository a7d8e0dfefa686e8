// A fraction in lowest terms that fits the bounds.
ghost use Rattle.std.specs.Prelude.{◌≡◌, ◌<◌, true, unsigned_abs};
ghost use Rattle.fraction.specs.Bounds.{fits};
ghost use Rattle.fraction.specs.Divisors.{gcd};

#[derive(Clone, Copy, PartialEq, Eq, Debug)]
pub struct Fraction {
    pub num: i64,
    pub den: u64,
    ghost positive: { 0 < den },
    ghost within: { fits (unsigned_abs num) den ≡ true },
    ghost coprime: { gcd (unsigned_abs num) den ≡ 1 },
}
