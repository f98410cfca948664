//! The greatest number of steps. That one more is refused stands among the mistakes of examples/stored.

use rx_resource::Sample;
use rx_script::{Form, run};
use std::alloc::{AllocError, Global};
use std::test::Fail;

const MOST: u32 = 65_536;

// A scenario of so many steps, each of which drains.
fn drains(alloc: Global, steps: u32) -> Result<String, AllocError> {
    let mut text = String::new(alloc);
    text.push_str("{\"steps\":[{\"do\":\"drain\"}")?;
    for _ in 1..steps {
        text.push_str(",{\"do\":\"drain\"}")?;
    }
    text.push_str("]}")?;
    Ok(text)
}

#[test]
fn a_scenario_has_at_most_65_536_steps(rt: HostRuntime) -> Result<(), Fail> {
    let text = drains(rt.alloc(), MOST)?;
    let stock: Vec<Sample> = Vec::new(rt.alloc());
    run(rt.alloc(), text.as_bytes(), stock, Form::Report)?;
    Ok(())
}
