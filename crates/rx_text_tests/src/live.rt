//! A live book, line by line.

mod lasting;
mod session;
mod want;
