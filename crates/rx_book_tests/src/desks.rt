//! A book behind a desk: seats, threads, and storms.
//!
//! What is tried at a desk is a [`trials::Trial`]; a test is a table of them, with the lines that each has to tell.

mod closed_keys;
mod desk_calls;
mod endless;
mod feeds;
mod finishing;
mod leases;
mod parts;
mod pull_refused_memory;
mod releases_outside_the_lock;
mod seats;
mod storms;
mod ticks;
mod trials;
mod whole;
mod workers;
