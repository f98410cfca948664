//! Why a text was not read or written.

use thiserror::Error;

/// Why a run or a check ended early.
#[derive(Debug, Drop, Error)]
pub enum ScriptError {
    /// The reader failed.
    #[error("read fault")]
    Read,
    /// The writer failed, or took no byte.
    #[error("write fault")]
    Write,
    /// The input is no JSON text, or longer than 16,777,216 bytes.
    #[error("faulty input")]
    Syntax,
    /// The input is JSON and no scenario, or no dump where one is checked.
    #[error("faulty input")]
    Shape,
    /// There was no memory.
    #[error("out of memory")]
    Memory,
}
