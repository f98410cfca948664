//! Devices that are watched: bytes from a reader, text to a writer, and whose fault a fault is; and JSON values.
//!
//! # Vocabulary
//!
//! - A [`Watched`] reader or writer notes how often the device behind it was called, whether a call
//!   failed, and whether one moved no byte, so that a contract can say whose fault a fault is
//!   (`specs/Device.antt`).
//! - [`read_all`] reads a device to its end, and [`value_of`] gives the JSON value of which bytes are the text; what a
//!   device gave is said in `specs/Input.antt`. [`write_text`] writes a whole text.
//! - [`parse_in_place`] reads a JSON text without a copy of what stands in it, and a [`Part`] looks into that;
//!   `specs/Part.antt` says for which JSON value it stands.
//! - A [`ScriptError`] says why a text was not read or written, a [`ShapeError`] why a JSON value is not
//!   what was asked for (`specs/Gives.antt`).
//!
//! # Promised, and not
//!
//! - An Ok means that no call of the device failed; of a reader, that it was read to its end; of a writer,
//!   that it took a byte at each call. A device is called no further after a fault, and how often it is called
//!   has a bound.
//! - Each error comes only for its cause, and a cause is never passed over. `Memory` alone has no cause
//!   that a contract could name: that it is given only where memory was refused is tested above.
//! - How `serde_json` reads a text is its own promise. How fast a device is, nothing says.
#![tactic(auto)]

mod document;
mod fault;
mod part;
mod reading;
mod shape;
mod value;
mod watched;
mod writing;

pub use document::parse_in_place;
pub use fault::ScriptError;
pub use part::Part;
pub use reading::{MOST_BYTES, MOST_TURNS, read_all};
pub use shape::ShapeError;
pub use value::value_of;
pub use watched::Watched;
pub use writing::{WriteFault, write_text};
