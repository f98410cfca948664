ghost use Rattle.std.specs.Prelude.{◌≡◌, Err};

/// Why a value was not taken in.
#[derive(Clone, Copy, Debug, PartialEq, Eq)]
pub enum Why {
    /// The place is disposed of, for good.
    Disposed,
    /// The place had its one value before.
    Already,
    /// The place has given all the tickets that it has.
    TooMany,
    /// There was no memory for it.
    NoMemory,
}

/// A value that was not taken in, handed back as it was.
///
/// It lets itself go where its value does. One with a value that may not be dropped has to be taken
/// apart, so that no such value gets lost.
#[derive(Drop)]
pub struct Back<T> {
    /// What stood against it.
    pub why: Why,
    /// The value that was handed in.
    pub value: T,
}

impl<T> Back<T> {
    ghost use Rattle.rx_disposable.specs.Back.{refusal};

    // The answer of a call that does not take the value in.
    pub(crate) fn refuse<U>(why: Why, value: T) -> Result<U, Self>
        ensures { result ≡ Err (refusal why value) }
    {
        Err(Back { why, value })
    }
}
