//! Notes in a row that are the same, kept as one record.

ghost use Rattle.std.specs.Prelude.{◌≡◌, ◌++◌, ◌∷◌, [], OnOk};
ghost use Rattle.rx_script.specs.Repeated.{one_by_one};

use rx_note::Note;
use std::alloc::AllocError;

/// A note, and how often it comes in a row: where hubs stand one above the other, an observer receives one item
/// hundreds of thousands of times.
#[derive(Clone, Copy)]
pub struct Repeated {
    pub note: Note,
    pub times: u64,
}

/// Adds a note behind the others.
pub fn add(notes: &mut Vec<Repeated>, note: Note) -> Result<(), AllocError>
    ensures { OnOk result (one_by_one notes.new.items ≡ one_by_one notes.old.items ++ note ∷ []) }
{
    if let Some(last) = notes.last_mut() {
        if last.note == note && last.times < u64::MAX {
            last.times += 1;
            return Ok(());
        }
    }
    notes.push(Repeated { note, times: 1 })?;
    Ok(())
}
