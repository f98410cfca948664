//! Callers, as examples of what can be said of a group.
ghost use Rattle.std.specs.Prelude.{◌≡◌, ◌≢◌, ◌++◌, ℕ, [], IfOk, OnOk, OnErr};
ghost use Rattle.std.specs.Mem.{FitsInMemory};
ghost use Rattle.rx_disposable.specs.Group.{value_under};
ghost use Rattle.rx_disposable.specs.contracts.members.Members.{the_row};

use rx_disposable::{Back, Group};
use std::alloc::AllocError;

// Adds a value and takes it out again, which changes no other value.
pub(crate) fn there_and_back<T: Drop>(group: &mut Group<T>, value: T) -> Result<T, Back<T>>
    ensures ok { IfOk result (λ same. same ≡ value) }
    ensures others { (ticket : ℕ) → ticket ≢ group.old.given → value_under group.new ticket ≡ value_under group.old ticket }
    ensures err { OnErr result (group.new ≡ group.old) }
{
    let ticket = group.add(value)?;
    Ok(group.remove(ticket).unwrap())
}

// Disposes of a group, and moves what was inside to the end of a list. A function that is generic in
// the values, and names `Members` in its body alone, has to require that their type fits in memory.
pub(crate) fn moved_out<T: Drop>(
    group: &mut Group<T>,
    list: &mut Vec<(u64, T)>,
) -> Result<(), AllocError>
    requires { FitsInMemory (the_row T.row) }
    ensures ok { OnOk result (list.new.items ≡ list.old.items ++ group.old.members) }
    ensures empty { group.new.members ≡ [] }
{
    for member in group.dispose() {
        list.push(member)?;
    }
    Ok(())
}
