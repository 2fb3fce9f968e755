//! Sets of small numbers.

ghost use Rattle.std.specs.Prelude.{◌≡◌, ◌==◌, ◌≤◌, ◌||◌, ◌&&◌, not, nat_lt, ℕ, false, IsTrue};
ghost use Rattle.fk_core_liveness.specs.Sets.{is_in};

/// A set of numbers below 64.
#[derive(Clone, Copy, PartialEq, Eq, Debug)]
pub struct Set {
    /// Bit n says whether the number n is in the set.
    pub mask: u64,
}

impl Set {
    pub fn empty() -> Set
        ensures { (n : ℕ) → is_in result.mask n ≡ false }
    {
        Set { mask: 0 }
    }

    pub fn has(&self, number: u32) -> bool
        ensures { result ≡ is_in self.now.mask number }
    {
        number < 64 && (self.mask >> number) % 2 == 1
    }

    pub fn is_empty(&self) -> bool
        ensures empty { IsTrue result → (n : ℕ) → is_in self.now.mask n ≡ false }
        ensures exact { result ≡ (self.now.mask == 0) }
    {
        self.mask == 0
    }

    /// The set with one more number, if that is below 64.
    pub fn with(&self, number: u32) -> Set
        ensures { (n : ℕ) → is_in result.mask n
            ≡ (is_in self.now.mask n || ((n == number) && nat_lt n 64)) }
    {
        if number < 64 {
            Set {
                mask: self.mask | 1 << number,
            }
        } else {
            *self
        }
    }

    pub fn without(&self, number: u32) -> Set
        ensures { (n : ℕ) → is_in result.mask n ≡ (is_in self.now.mask n && not (n == number)) }
    {
        if number < 64 {
            Set {
                mask: self.mask & !(1 << number),
            }
        } else {
            *self
        }
    }

    /// The numbers of two sets.
    pub fn union(&self, other: Set) -> Set
        ensures both { (n : ℕ)
            → is_in result.mask n ≡ (is_in self.now.mask n || is_in other.mask n) }
        ensures more { self.now.mask ≤ result.mask }
    {
        Set {
            mask: self.mask | other.mask,
        }
    }
}
