//! A session as data: what is sent, and what it has to be answered.

use rx_live::Live;
use std::alloc::{AllocError, Global};

/// A line, and the end of its answer, which is all of it where it begins with a brace. The end of the session is an
/// empty line.
pub(super) type Row = (&'static str, &'static str);

/// Lines, and how often they are sent.
pub(super) type Part = (u32, &'static [Row]);

// Whether a line is answered so.
fn is_answered(live: &mut Live, (line, answer): Row) -> Result<bool, AllocError> {
    if line.is_empty() {
        live.end()?;
    } else {
        live.send(line.as_bytes())?;
    }
    Ok(live.answer().ends_with(answer))
}

// The first line of these that is answered otherwise.
fn first_of(live: &mut Live, rows: &[Row]) -> Result<Option<&'static str>, AllocError> {
    for row in rows {
        if !is_answered(live, *row)? {
            return Ok(Some(row.0));
        }
    }
    Ok(None)
}

/// The first line that is answered otherwise, of a new live book whose history may have so many events.
pub(super) fn first_other(
    alloc: Global,
    limit: u32,
    parts: &[Part],
) -> Result<Option<&'static str>, AllocError> {
    let mut live = Live::new(alloc, u64::from(limit))?;
    for (times, rows) in parts {
        for _ in 0..*times {
            if let Some(line) = first_of(&mut live, rows)? {
                return Ok(Some(line));
            }
        }
    }
    Ok(None)
}
