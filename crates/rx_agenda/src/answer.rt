//! What the steps of a scenario are answered.

use rx_event::Refusal;

/// The answer of an executed step.
#[derive(Clone, Copy)]
pub enum Answer {
    /// It was done.
    Accepted,
    /// Nothing was changed, and no name was bound.
    Refused(Cause),
}

/// Why a step changes nothing. The scenario's own causes come before the book's, in this order.
#[derive(Clone, Copy)]
pub enum Cause {
    /// It uses a name that is not bound.
    NoName,
    /// It would bind a name that is bound.
    NameTaken,
    /// It takes a resource, and none is left in the stock.
    NoStock,
    /// It cancels a step, and no step that waits has the label.
    NoStep,
    /// The book refuses its call.
    Book(Refusal),
}
