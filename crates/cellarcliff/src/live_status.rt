//! The statuses of the calls on a live book.

pub const DONE: u8 = 0;

pub const TOO_SMALL: u8 = 1;

pub const NOTHING_KEPT: u8 = 2;

pub const ANSWER_WAITS: u8 = 3;

pub const OUT_OF_MEMORY: u8 = 4;

pub const HELD: u8 = 5;

pub const NOTHING_WAITS: u8 = 6;
