//! One notification.

/// How a subscription ends by itself (Observable Contract: OnCompleted and OnError).
#[derive(Clone, Copy, Debug, PartialEq, Eq)]
pub enum Terminal {
    /// Nothing more is to come, and nothing failed.
    Completed,
    /// It failed, with a code of the caller's own.
    Error(u32),
}

/// What an observer is told.
#[derive(Clone, Copy, Debug, PartialEq, Eq)]
pub enum Note {
    /// An item (Observable Contract: OnNext).
    Next(i64),
    /// An item of the source of a FlatMap or a Switch, for which the caller is to open an inner
    /// observable, or to decline it. This project's own form of the operator's function.
    Project(i64),
    /// The end, after which nothing comes.
    End(Terminal),
}
