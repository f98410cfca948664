//! Labels, of which no two are the same.

ghost use Rattle.std.specs.Prelude.{◌≡◌, [], IfOk};
ghost use Rattle.rx_scenario.specs.Scenario.{labels_meant};
ghost use Rattle.rx_scenario.specs.Reading.{are_new};

use std::alloc::{AllocError, Global};
use std::collections::HashSet;

/// Whether no label stands twice in the list.
pub fn are_distinct(alloc: Global, labels: &[Option<String>]) -> Result<bool, AllocError>
    ensures { IfOk result (λ distinct. distinct ≡ are_new [] (labels_meant labels.now)) }
{
    let mut seen: HashSet<&str> = HashSet::new(alloc);
    for label in labels {
        if let Some(label) = label {
            if !seen.insert(label.as_str())? {
                return Ok(false);
            }
        }
    }
    Ok(true)
}
