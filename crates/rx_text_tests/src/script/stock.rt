//! What becomes of the resources of a stock: what is accepted is released once.

use super::sights::{are_released_once, stock_by, trackers};
use crate::same::same;
use rx_resource::{Resource, Tracked, Tracker};
use rx_script::{Form, ScriptError, run};
use std::alloc::{AllocError, Global};
use std::test::Fail;

const SCENARIO: &str = "{\"steps\":[
    {\"do\":\"using\",\"name\":\"a\",\"place\":\"root\",\"res\":\"r\"},
    {\"do\":\"hold\",\"node\":\"a\",\"res\":\"q\"},
    {\"do\":\"apply\",\"res\":\"q\",\"word\":9},
    {\"do\":\"remove\",\"res\":\"r\"},
    {\"do\":\"hold\",\"node\":\"a\",\"res\":\"s\"},
    {\"do\":\"hold\",\"node\":\"a\",\"res\":\"t\"}]}";

const REPORT: &str = "node a open:
res r tag=0 uses=0 waiting
res q tag=1 uses=1 held
res s tag=2 uses=0 held
res t tag=3 uses=0 held
totals nodes=1 open=1 accepted=4 held=3 waiting=1 taken=0
closed 4 faults 1
";

// The word that the resource of this tag heard last, or 0.
fn heard_by(trackers: &[Tracker], tag: usize) -> u64 {
    match trackers.get(tag) {
        Some(tracker) => tracker.heard(),
        None => 0,
    }
}

#[test]
fn what_was_accepted_is_released_once_and_the_rest_is_dropped(rt: HostRuntime) -> Result<(), Fail> {
    let trackers = trackers(rt.alloc(), 5)?;
    let stock = stock_by(rt.alloc(), &trackers)?;
    let report = run(rt.alloc(), SCENARIO.as_bytes(), stock, Form::Report)?;
    same(&rt, report.as_str(), REPORT);
    assert!(rt; are_released_once(&trackers, 4));
    same(&rt, heard_by(&trackers, 1), 9);
    Ok(())
}

#[test]
fn of_an_input_that_is_no_scenario_nothing_is_released(rt: HostRuntime) -> Result<(), Fail> {
    for (input, is_json) in [("{\"steps\":[", false), ("[]", true)] {
        let trackers = trackers(rt.alloc(), 5)?;
        let stock = stock_by(rt.alloc(), &trackers)?;
        let outcome = run(rt.alloc(), input.as_bytes(), stock, Form::Report);
        assert!(rt; outcome.is_err() && are_released_once(&trackers, 0));
        same(&rt, matches!(outcome, Err(ScriptError::Shape)), is_json);
    }
    Ok(())
}

const HANDED_IN: &str = "{\"steps\":[
    {\"do\":\"using\",\"name\":\"a\",\"place\":\"root\",\"res\":\"r\"},
    {\"do\":\"open\",\"name\":\"a\",\"place\":\"root\",\"kind\":\"leaf\"},
    {\"do\":\"hold\",\"node\":\"a\",\"res\":\"r\"}]}";

const NOT_FRESH: &str = "refused 0 NotFresh
refused 2 NotFresh
node a open:
totals nodes=1 open=1 accepted=0 held=0 waiting=0 taken=0
closed 0 faults 0
";

// Two resources, of which the first was used.
fn used_stock(alloc: Global, tracker: &Tracker) -> Result<Vec<Tracked>, AllocError> {
    let mut used = tracker.resource(5, None)?;
    Resource::apply(&mut used, 9);
    let mut stock = Vec::new(alloc);
    stock.push(used)?;
    stock.push(tracker.resource(6, None)?)?;
    Ok(stock)
}

#[test]
fn a_used_resource_is_refused_and_stays_in_front(rt: HostRuntime) -> Result<(), Fail> {
    let tracker = Tracker::new(rt.alloc())?;
    let stock = used_stock(rt.alloc(), &tracker)?;
    let report = run(rt.alloc(), HANDED_IN.as_bytes(), stock, Form::Report)?;
    same(&rt, report.as_str(), NOT_FRESH);
    same(&rt, (tracker.heard(), tracker.released()), (9, 0));
    Ok(())
}
