//! Plays calls at a desk, and at the parts below a book, a line each, and tells what each comes to, for `.ci/play`, which
//! makes the lines and knows what has to be told.
//!
//! The first line is `events N`, the limit of the desk's book. Nodes, resources and leases go by their numbers, a resource that
//! is handed in by its tag. At the end the desk tells the verdict on its one seat, and its book what it released.
#![tactic(auto)]

mod calls;
mod desk;
mod keys;
mod looking;
mod parts;
mod words;

use desk::play_text;
use std::io;

fn main(rt: HostRuntime) -> io::Result<()> {
    let text = io::read_to_string(rt.alloc(), rt.reader())?;
    let mut told = String::new(rt.alloc());
    play_text(&rt, rt.alloc(), &text, &mut told);
    print!(rt; "{told}")
}
