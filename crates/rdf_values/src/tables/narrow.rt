// Numbers of any size.
ghost use Rattle.std.specs.Prelude.{◌≡◌, ℤ};

/// A number of at most 64 bits.
pub(crate) trait Narrow: Copy {
    // The number that a value is.
    ghost number: { Self → ℤ };

    /// The number in 64 bits.
    fn widen(self) -> i64
        ensures { result ≡ number self };
}

impl Narrow for i16 {
    ghost number = { λ n. n };

    fn widen(self) -> i64 {
        i64::from(self)
    }
}

impl Narrow for i32 {
    ghost number = { λ n. n };

    fn widen(self) -> i64 {
        i64::from(self)
    }
}

impl Narrow for i64 {
    ghost number = { λ n. n };

    fn widen(self) -> i64 {
        self
    }
}
