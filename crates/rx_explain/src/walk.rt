//! Going through an input up to the first fault.

use std::alloc::{AllocError, AllocFailed, Global};

/// Why going through an input came to its end early.
#[derive(Drop)]
pub enum Stop {
    /// Something is wrong, which the sentence says.
    Told(String),
    /// Memory was refused.
    Memory,
}

impl From<AllocError> for Stop {
    fn from(_error: AllocError) -> Stop {
        Stop::Memory
    }
}

impl<T: Drop> From<AllocFailed<T>> for Stop {
    fn from(_error: AllocFailed<T>) -> Stop {
        Stop::Memory
    }
}

/// How going through a part of an input ends: Ok where nothing was found.
pub type Walk = Result<(), Stop>;

/// The end at which this sentence is told.
pub fn tell(sentence: Result<String, AllocError>) -> Walk {
    Err(match sentence {
        Ok(sentence) => Stop::Told(sentence),
        Err(_) => Stop::Memory,
    })
}

/// The end of a walk inside a part, with a text before its sentence.
pub fn inside(alloc: Global, front: &str, walk: Walk) -> Walk {
    match walk {
        Err(Stop::Told(told)) => tell(format!(in alloc; "{front}{told}")),
        walk => walk,
    }
}

/// The end of a walk inside a list, with the place there before its sentence.
pub fn numbered(alloc: Global, place: usize, walk: Walk) -> Walk {
    match walk {
        Err(Stop::Told(told)) => tell(format!(in alloc; "[{place}]{told}")),
        walk => walk,
    }
}

/// The sentence, if one was told.
pub fn told_by(walk: Walk) -> Result<Option<String>, AllocError> {
    match walk {
        Ok(()) => Ok(None),
        Err(Stop::Told(told)) => Ok(Some(told)),
        Err(Stop::Memory) => Err(AllocError),
    }
}
