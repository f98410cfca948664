//! Memory that is refused to work whose stack is deep enough before.

use rx_scarce::Scarce;
use std::alloc::Global;
use std::test::Fail;

/// Takes the memory that is left, behind what came of the same work where there was enough of it: where no memory is left a
/// stack cannot grow, and now it has the pages that the work takes.
pub(super) fn scarce_after(alloc: Global, done: Result<(), Fail>) -> Result<Scarce, Fail> {
    done?;
    Ok(Scarce::new(alloc)?)
}
