//! Two flags in one byte.

ghost use Rattle.std.specs.Prelude.{◌≡◌, true};
ghost use Rattle.rx_marks.specs.MarksInWords.{two_of, first_in, second_in};

/// Which of two flags are set.
#[derive(Clone, Copy)]
pub(crate) enum Two {
    Neither,
    First,
    Second,
    Both,
}

impl Two {
    // These.
    #[inline(always)]
    fn of(first: bool, second: bool) -> Self
        ensures { result ≡ two_of first second }
    {
        match (first, second) {
            (false, false) => Two::Neither,
            (true, false) => Two::First,
            (false, true) => Two::Second,
            (true, true) => Two::Both,
        }
    }

    /// Whether the first is set.
    #[inline(always)]
    pub(crate) fn first(self) -> bool
        ensures { result ≡ first_in self }
    {
        match self {
            Two::First | Two::Both => true,
            Two::Neither | Two::Second => false,
        }
    }

    /// Whether the second is set.
    #[inline(always)]
    pub(crate) fn second(self) -> bool
        ensures { result ≡ second_in self }
    {
        match self {
            Two::Second | Two::Both => true,
            Two::Neither | Two::First => false,
        }
    }

    /// With the first set.
    #[inline(always)]
    pub(crate) fn with_first(self) -> Self
        ensures { result ≡ two_of true (second_in self) }
    {
        Two::of(true, self.second())
    }

    /// With the second set.
    #[inline(always)]
    pub(crate) fn with_second(self) -> Self
        ensures { result ≡ two_of (first_in self) true }
    {
        Two::of(self.first(), true)
    }
}
