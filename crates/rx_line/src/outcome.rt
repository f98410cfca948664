//! What a command is answered.

use rx_event::Refusal;

/// Why a command was refused, and nothing changed.
#[derive(Clone, Copy)]
pub enum Cause {
    /// It uses a name that is not bound: one that was never given, or whose node was closed, whose resource
    /// was taken, or whose lease was given back.
    NoName,
    /// It would bind a name that is bound, or one name twice.
    NameTaken,
    /// The book refuses the call.
    Book(Refusal),
}

/// What a command is answered.
#[derive(Clone, Copy)]
pub enum Outcome {
    /// It was carried out.
    Accepted,
    /// It was refused.
    Refused(Cause),
}
