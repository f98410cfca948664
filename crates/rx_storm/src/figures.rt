//! What a storm tells.

ghost use Rattle.std.specs.Prelude.{◌≡◌, ◌++◌, string_bytes, IfOk, OnOk};
ghost use Rattle.rx_storm.specs.Storms.{first_lines, last_lines, figures_text};

use std::alloc::{AllocError, Global};

/// What a storm came to.
#[derive(Clone, Copy)]
pub struct Figures {
    /// Resources accepted.
    pub accepted: u64,
    /// Resources taken.
    pub taken: u64,
    /// Resources that the workers released.
    pub released: u64,
    /// Releases that answered a fault.
    pub faults: u64,
    /// Resources held at the end.
    pub held: u64,
    /// Resources that wait at the end.
    pub waiting: u64,
    /// Notes taken at the end.
    pub notes: u64,
    /// Events of the history.
    pub events: u64,
}

impl Figures {
    /// One figure a line, after its name.
    pub fn text(self, alloc: Global) -> Result<String, AllocError>
        ensures { IfOk result (λ text. string_bytes text ≡ figures_text self) }
    {
        let mut text = String::new(alloc);
        push_first(&mut text, self)?;
        push_last(&mut text, self)?;
        Ok(text)
    }
}

#[tactic(auto, unfolding(crate::specs::Storms::first_lines))]
fn push_first(text: &mut String, figures: Figures) -> Result<(), AllocError>
    ensures { OnOk result (string_bytes text.new ≡ string_bytes text.old ++ first_lines figures) }
{
    let Figures {
        accepted,
        taken,
        released,
        faults,
        ..
    } = figures;
    writeln!(
        text,
        "accepted {accepted}\ntaken {taken}\nreleased {released}\nfaults {faults}"
    )
}

#[tactic(auto, unfolding(crate::specs::Storms::last_lines))]
fn push_last(text: &mut String, figures: Figures) -> Result<(), AllocError>
    ensures { OnOk result (string_bytes text.new ≡ string_bytes text.old ++ last_lines figures) }
{
    let Figures {
        held,
        waiting,
        notes,
        events,
        ..
    } = figures;
    writeln!(
        text,
        "held {held}\nwaiting {waiting}\nnotes {notes}\nevents {events}"
    )
}
