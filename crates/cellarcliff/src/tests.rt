//! What no clause says of the calls: that each can succeed, with the numbers of the header and the texts of worked
//! examples; memory that is refused, and memory that comes back; values of all 64 bits, many nodes, many lanes, many
//! checkpoints.

mod bench;
mod dumps;
mod live;
mod many;
mod memory;
mod numbers;
mod refused_memory;
mod showing;
mod steps;
mod texts;
