//! Where each shown place stands on the axis, and each shown number among the rows.

ghost use Rattle.std.specs.Prelude.{IfOk, length};
ghost use Rattle.rx_picture.specs.Choice.{marked};
ghost use Rattle.rx_picture.specs.Drawn.{AreColumns};

use crate::choice::{is_marked, one_if};
use std::alloc::{AllocError, Global};

/// By number, and for the end: how many are marked before it.
pub fn columns_of(alloc: Global, shown: &[bool]) -> Result<Vec<usize>, AllocError>
    ensures { IfOk result (λ v. AreColumns (marked shown.now) (length shown.now) v.items) }
{
    let mut columns = Vec::new(alloc);
    let mut before = 0;
    for n in 0..shown.len() {
        columns.push(before)?;
        before += one_if(is_marked(shown, n));
    }
    columns.push(before)?;
    Ok(columns)
}
