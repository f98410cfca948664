//! The words of a line, and a line of what is told.

use std::fmt::Debug;

/// A line: a word, and the words behind it. One that is missing is empty.
#[derive(Clone, Copy)]
pub struct Line<'a> {
    words: [&'a str; 6],
}

/// The first words of a line.
pub fn line_of(text: &str) -> Line<'_> {
    let mut words = [""; 6];
    for (at, word) in text.split(' ').enumerate() {
        if let Some(place) = words.get_mut(at) {
            *place = word;
        }
    }
    Line { words }
}

impl<'a> Line<'a> {
    /// The word at this place.
    pub fn word(&self, at: usize) -> &'a str {
        match self.words.get(at) {
            Some(word) => word,
            None => "",
        }
    }

    /// The number at this place; what is none is the number of nothing.
    pub fn number(&self, at: usize) -> u64 {
        self.word(at).parse::<u64>().unwrap_or(u64::MAX)
    }

    /// The code of an error at this place.
    pub fn code(&self, at: usize) -> u32 {
        self.word(at).parse::<u32>().unwrap_or(0)
    }
}

/// Puts a line behind what was told. Without memory for it the line is missing.
pub fn tell<T: Debug + Drop>(told: &mut String, line: T) {
    let _ = write!(told, "{line:?}\n");
}
