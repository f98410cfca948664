//! A run that is longer than its limit.

use super::session::{Part, Row, first_other};

// A root that holds a resource, and its source.
const BEGUN: [Row; 2] = [
    (
        r#"{"do":"using","name":"a","place":"root","res":"r"}"#,
        r#"{"ok":0}"#,
    ),
    (
        r#"{"do":"open","name":"b","place":"source","of":"a","kind":"leaf"}"#,
        r#"{"ok":2}"#,
    ),
];

const ITEM: [Row; 1] = [(
    r#"{"do":"next","node":"b","value":5}"#,
    r#","notes":[{"to":"a","next":5}]}"#,
)];

const ENDED: [Row; 3] = [
    (
        r#"{"do":"list"}"#,
        "{\"ok\":103,\"nodes\":[{\"name\":\"a\",\"number\":0,\"kind\":\"pass\",\"place\":\"root\"},\
            {\"name\":\"b\",\"number\":2,\"kind\":\"leaf\",\"place\":\"source\",\"of\":\"a\"}],\
            \"resources\":[{\"name\":\"r\",\"number\":1,\"node\":\"a\",\"uses\":0}],\"leases\":[],\"hubs\":[]}",
    ),
    (
        r#"{"do":"end","node":"b"}"#,
        r#"{"ok":103,"closed":["a"],"notes":[{"to":"a","completed":true}],"release":["r"]}"#,
    ),
    ("", r#"{"closed":true}"#),
];

static LONG: [Part; 3] = [(1, &BEGUN), (100, &ITEM), (1, &ENDED)];

#[test]
fn a_run_that_is_longer_than_its_limit_goes_on(rt: HostRuntime) {
    assert_eq!(rt; first_other(rt.alloc(), 10, &LONG), Ok(None));
}

const FULL: [Row; 5] = [
    (r#"{"do":"hold","node":"a","res":"s"}"#, r#"{"ok":3}"#),
    (r#"{"do":"hold","node":"a","res":"t"}"#, r#"{"ok":4}"#),
    (
        r#"{"do":"hold","node":"a","res":"u"}"#,
        r#"{"refused":"Full"}"#,
    ),
    (
        r#"{"do":"remove","res":"t"}"#,
        r#"{"ok":5,"release":["t"]}"#,
    ),
    (r#"{"do":"hold","node":"a","res":"u"}"#, r#"{"ok":7}"#),
];

static OPEN_ALONE: [Part; 2] = [(1, &BEGUN), (1, &FULL)];

#[test]
fn full_is_answered_by_what_is_open_alone(rt: HostRuntime) {
    assert_eq!(rt; first_other(rt.alloc(), 10, &OPEN_ALONE), Ok(None));
}
