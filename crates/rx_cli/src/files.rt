//! The name of a file among the words of a command line.

use crate::usage::HELPS;
use rx_scenario::is_among;
use std::alloc::{AllocError, Global};

/// The commands that read, each of which takes a file.
const READING: &str = "run, audit, explain, picture, live";

/// The words of a command line, without the name of a file.
#[derive(Drop)]
pub struct Given {
    /// The words, of which the first is the program's name.
    pub words: Vec<String>,
    /// The file to read in place of standard input.
    pub file: Option<String>,
}

// Whether the word begins as an option does. A dash alone stands for standard input.
fn is_option(word: &str) -> bool {
    word.starts_with("-") && word.len() > 1
}

// Whether a run with no word for it is ordered by a line that goes on with this word: an option of a run, or a file, whose name has a
// dot or a slash in it.
fn begins_run(word: &str) -> bool {
    if is_option(word) {
        return !is_among(word, HELPS);
    }
    word == "-" || word.contains(".") || word.contains("/")
}

// How the words begin that are left to read, and how many are taken by that.
fn begin(alloc: Global, words: &[String]) -> Result<Option<(Vec<String>, usize)>, AllocError> {
    let mut kept = Vec::new(alloc);
    let (Some(name), Some(word)) = (words.first(), words.get(1)) else {
        return Ok(None);
    };
    kept.push(String::from_str(alloc, name.as_str())?)?;
    if is_among(word.as_str(), READING) {
        kept.push(String::from_str(alloc, word.as_str())?)?;
        return Ok(Some((kept, 2)));
    }
    if begins_run(word.as_str()) {
        kept.push(String::from_str(alloc, "run")?)?;
        return Ok(Some((kept, 1)));
    }
    Ok(None)
}

// Takes the name of the file out of words that a command which reads goes on with. A second name stays, and is refused.
fn take_file(alloc: Global, given: &mut Given, rest: &[String]) -> Result<(), AllocError> {
    let mut has_ended = false;
    for word in rest {
        let word = word.as_str();
        if !has_ended && word == "--" {
            has_ended = true;
            continue;
        }
        if !has_ended && word == "-" {
            continue;
        }
        let text = String::from_str(alloc, word)?;
        if given.file.is_none() && (has_ended || !is_option(word)) {
            given.file = Some(text);
        } else {
            given.words.push(text)?;
        }
    }
    Ok(())
}

/// Takes the name of a file out of the words of a command line, of which the first is the program's name. A line that begins with
/// an option of a run, or with a file whose name has a dot or a slash in it, orders a run.
pub fn split_file(alloc: Global, words: Vec<String>) -> Result<Given, AllocError> {
    let Some((kept, taken)) = begin(alloc, words.as_slice())? else {
        return Ok(Given { words, file: None });
    };
    let mut given = Given {
        words: kept,
        file: None,
    };
    let rest = words.as_slice().get(taken..).unwrap_or(&[]);
    take_file(alloc, &mut given, rest)?;
    Ok(given)
}
