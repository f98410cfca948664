use std::marker::Model;

/// How many tickets a timeline gives in its life: 0 up to 4,294,967,294.
pub const MAX_TICKETS: u32 = u32::MAX;

/// The name of one entry of a timeline.
///
/// A timeline counts its tickets from 0 and gives none twice. A ticket says nothing of which
/// timeline gave it: at another one it stands for the entry there that has the same number, if
/// there is one.
#[derive(Clone, Copy, Debug, PartialEq, Eq)]
pub struct Ticket {
    pub(crate) number: u32,
}

impl Model for Ticket {
    ghost use Rattle.std.specs.Prelude.{ℕ};

    ghost Value = { ℕ };

    ghost view = { λ t. t.number };

    ghost inverse = { λ n. record { number = n } };
}
