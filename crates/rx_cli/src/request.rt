//! What the program is asked to do.

use rx_dump::Labels;
use rx_script::Form;

/// What the words of a command line order.
#[derive(Clone, Copy)]
pub enum Order {
    /// Read standard input to its end, and write what is asked of it.
    Say(Asked),
    /// Keep a live book: a line in, a line out.
    Live,
    /// Run a storm of threads at one book, and write its figures.
    Storm {
        /// How many threads subscribe and emit, 1 to 64.
        sources: u64,
        /// How many threads release, 1 to 16.
        workers: u64,
        /// How many items each source emits, 0 to 10,000.
        items: u64,
    },
}

/// What is asked of an input.
#[derive(Clone, Copy)]
pub enum Asked {
    /// What the run of a scenario gives in this form. Where it is strict, a step that is refused has a status of its own.
    Run {
        /// In which form.
        form: Form,
        /// Whether it is strict.
        is_strict: bool,
    },
    /// The trace of a scenario, strict or not.
    Trace {
        /// Whether it is strict.
        is_strict: bool,
    },
    /// The verdict on the history of a dump, alone or beside names, with these labels.
    Audit(Labels),
    /// What is wrong with it.
    Explain,
    /// The picture of the history of a dump, alone or beside names.
    Picture,
}
