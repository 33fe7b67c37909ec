//! The three widths in which the places of a row are counted.

ghost use Rattle.std.specs.Prelude.{◌≡◌, ℕ, ◌≤◌, ◌<◌, ◌-◌, ◌*◌, ◌^◌, ◌↔◌, IsTrue};

/// Whole numbers of a width.
pub(crate) trait Width: Copy {
    ghost value: { Self → ℕ };

    // the least number that doesn't fit
    ghost bound: { ℕ };

    fn zero() -> Self
        ensures { value result ≡ 0 };

    /// The product with a weight.
    fn times(self, weight: u64) -> Self
        requires { value self * weight < bound }
        ensures { value result ≡ value self * weight };

    /// What is left without another number.
    fn minus(self, other: Self) -> Self
        requires { value other ≤ value self }
        ensures { value result ≡ value self - value other };

    fn exceeds(self, other: Self) -> bool
        ensures { IsTrue result ↔ (value other < value self) };

    ghost clones_are_equal: { (x y : Self) → Self.is_clone x y → y ≡ x };
}

impl Width for u32 {
    ghost value = { λ n. n };

    ghost bound = { 2 ^ 32 };

    #[inline]
    fn zero() -> u32 {
        0
    }

    #[inline]
    fn times(self, weight: u64) -> u32 {
        // the weight alone may need more than the product
        (u64::from(self) * weight) as u32
    }

    #[inline]
    fn minus(self, other: u32) -> u32 {
        self - other
    }

    #[inline]
    fn exceeds(self, other: u32) -> bool {
        self > other
    }

    ghost clones_are_equal = { λ x y same. same };
}

impl Width for u64 {
    ghost value = { λ n. n };

    ghost bound = { 2 ^ 64 };

    #[inline]
    fn zero() -> u64 {
        0
    }

    #[inline]
    fn times(self, weight: u64) -> u64 {
        self * weight
    }

    #[inline]
    fn minus(self, other: u64) -> u64 {
        self - other
    }

    #[inline]
    fn exceeds(self, other: u64) -> bool {
        self > other
    }

    ghost clones_are_equal = { λ x y same. same };
}

impl Width for u128 {
    ghost value = { λ n. n };

    ghost bound = { 2 ^ 128 };

    #[inline]
    fn zero() -> u128 {
        0
    }

    #[inline]
    fn times(self, weight: u64) -> u128 {
        self * u128::from(weight)
    }

    #[inline]
    fn minus(self, other: u128) -> u128 {
        self - other
    }

    #[inline]
    fn exceeds(self, other: u128) -> bool {
        self > other
    }

    ghost clones_are_equal = { λ x y same. same };
}
