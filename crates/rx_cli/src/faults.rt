//! What is wrong with an input that the program does not take, in a sentence.

use crate::request::Asked;
use rx_explain::explain;
use serde_json::Value;
use std::alloc::{AllocError, Global};

// What an input is meant for.
#[derive(Clone, Copy)]
enum Kind {
    // A history.
    History,
    // A history beside its names.
    Named,
    // A scenario, or an object that is none.
    Scenario,
    // No object and no array.
    Other,
}

fn kind_of(value: &Value) -> Kind {
    if value.is_array() {
        return Kind::History;
    }
    if !value.is_object() {
        return Kind::Other;
    }
    match value.get("dump") {
        Some(_) => Kind::Named,
        None => Kind::Scenario,
    }
}

// What is said of an input that another command takes, or that lacks what is asked. None where it is faulty by itself.
fn advice(asked: Asked, kind: Kind, is_faulty: bool) -> Option<&'static str> {
    match asked {
        Asked::Run { .. } | Asked::Trace { .. } => match kind {
            Kind::History => Some("this is a history; try rxbook audit"),
            Kind::Named => Some("this is a history with its names; try rxbook audit --names"),
            Kind::Scenario if !is_faulty => {
                Some("a scenario that has a checkpoint has no history to print; try rxbook run")
            }
            _ => None,
        },
        Asked::Audit(_) => match kind {
            Kind::Scenario => Some("this is a scenario; try rxbook run"),
            _ => None,
        },
        Asked::Picture => match kind {
            Kind::Scenario if is_faulty => {
                Some("this is an object, and has no history as its member \"dump\"")
            }
            Kind::Scenario => Some(
                "this is a scenario; rxbook run --names prints what rxbook picture draws",
            ),
            _ => None,
        },
        Asked::Explain => None,
    }
}

// The same of an input that may be no JSON text, of which nothing is said here.
fn advice_on(alloc: Global, asked: Asked, input: &[u8], is_faulty: bool) -> Option<&'static str> {
    match Value::from_slice(alloc, input) {
        Ok(value) => advice(asked, kind_of(&value), is_faulty),
        Err(_) => None,
    }
}

// What is wrong with an input that was found faulty, or which command takes it.
fn fault_of(alloc: Global, asked: Asked, input: &[u8]) -> Result<String, AllocError> {
    let told = match explain(alloc, input) {
        Ok(Some(told)) => told,
        Ok(None) => String::new(alloc),
        Err(_) => return Err(AllocError),
    };
    match advice_on(alloc, asked, input, !told.is_empty()) {
        Some(words) => String::from_str(alloc, words),
        None => Ok(told),
    }
}

// A line of the program's, where there is something to say.
fn line_of(alloc: Global, told: &str) -> Result<String, AllocError> {
    if told.is_empty() {
        return Ok(String::new(alloc));
    }
    format!(in alloc; "rxbook: {told}\n")
}

/// The line that says what is wrong with an input that was found faulty, or which command takes it. It is empty where
/// nothing is known, or memory is refused.
pub fn fault_line_of(alloc: Global, asked: Asked, input: &[u8]) -> String {
    let Ok(told) = fault_of(alloc, asked, input) else {
        return String::new(alloc);
    };
    match line_of(alloc, told.as_str()) {
        Ok(line) => line,
        Err(_) => String::new(alloc),
    }
}

/// The same of an input that is longer than an input may be, of which this is said.
pub fn fault_line(alloc: Global, told: Result<String, AllocError>) -> String {
    let Ok(told) = told else {
        return String::new(alloc);
    };
    match line_of(alloc, told.as_str()) {
        Ok(line) => line,
        Err(_) => String::new(alloc),
    }
}
