//! How many resources are lent, and how many are not.

ghost use Rattle.std.specs.Prelude.{◌≡◌, ◌+◌, ◌<◌, ◌^◌};
ghost use Rattle.rx_tree.specs.Store.{count_if, one_more, one_less};

/// How many resources are so that have no lease out, and how many that have one: no more than there are slots.
#[derive(Clone, Copy)]
pub(crate) struct Counts {
    pub(crate) free: u32,
    pub(crate) lent: u32,
}

impl Counts {
    pub(crate) fn zero() -> Self
        ensures free { result.free ≡ 0 }
        ensures lent { result.lent ≡ 0 }
    {
        Counts { free: 0, lent: 0 }
    }

    // One more, of those that have a lease out or of the others.
    pub(crate) fn more(self, lent: bool) -> Self
        requires { count_if lent self + 1 < 2 ^ 32 }
        ensures { result ≡ one_more lent self }
    {
        let mut counts = self;
        if lent {
            counts.lent += 1;
        } else {
            counts.free += 1;
        }
        counts
    }

    // One less.
    pub(crate) fn less(self, lent: bool) -> Self
        requires { 0 < count_if lent self }
        ensures { result ≡ one_less lent self }
    {
        let mut counts = self;
        if lent {
            counts.lent -= 1;
        } else {
            counts.free -= 1;
        }
        counts
    }
}
