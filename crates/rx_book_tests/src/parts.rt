//! The parts below a book that users meet: that a call is refused memory only where there is none, which calls ask for
//! none, and what a resource answers; and the callers that the pages of those crates show. What their clauses say in
//! full is not tested again, and what lies between them and the book is tested through a book.

mod disposable;
mod note;
mod resource;
mod room;
mod scarce;
mod slots;
mod time;
mod uses;
