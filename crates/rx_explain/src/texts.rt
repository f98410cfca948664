//! Where in a JSON text a fault lies, of which the reader tells another place: a control character within a text, an escape that
//! there is not, a bracket that closes too early.

/// A place in an input, by its line and column, both from 1.
#[derive(Clone, Copy)]
pub struct Spot {
    pub line: usize,
    pub column: usize,
}

// What a code unit is, which an escape writes in four digits.
#[derive(Clone, Copy)]
enum CodeUnit {
    High,
    Low,
    Other,
}

// What these four digits write; None where they are not digits.
fn unit_of(digits: &[u8]) -> Option<CodeUnit> {
    for digit in digits {
        if !matches!(*digit, b'0'..=b'9' | b'a'..=b'f' | b'A'..=b'F') {
            return None;
        }
    }
    if !matches!(digits.first(), Some(b'd' | b'D')) {
        return Some(CodeUnit::Other);
    }
    match digits.get(1) {
        Some(b'0'..=b'7') => Some(CodeUnit::Other),
        Some(b'8' | b'9' | b'a' | b'b' | b'A' | b'B') => Some(CodeUnit::High),
        _ => Some(CodeUnit::Low),
    }
}

// How many bytes the escape of a code unit takes, with the second one of a pair; None where it is none.
fn unit_length(from: &[u8]) -> Option<usize> {
    match unit_of(from.get(2..6)?)? {
        CodeUnit::Other => Some(6),
        CodeUnit::Low => None,
        CodeUnit::High => {
            let second = from.get(6..12)?;
            let is_low = matches!(unit_of(second.get(2..)?), Some(CodeUnit::Low));
            if is_low && second.starts_with(&[b'\\', b'u']) {
                Some(12)
            } else {
                None
            }
        }
    }
}

// How many bytes the escape takes with which the text goes on; None where there is no such escape.
fn escape_length(from: &[u8]) -> Option<usize> {
    match from.get(1)? {
        b'"' | b'\\' | b'/' | b'b' | b'f' | b'n' | b'r' | b't' => Some(2),
        b'u' => unit_length(from),
        _ => None,
    }
}

// How many bytes of what follows a text's opening quote come before its first fault; None where there is none.
fn before_fault(rest: &[u8]) -> Option<usize> {
    let mut place = 0usize;
    for _byte in 0..rest.len() {
        let from = rest.get(place..)?;
        let length = match from.first()? {
            b'"' => return None,
            0..=31 => None,
            b'\\' => escape_length(from),
            _ => Some(1),
        };
        match length {
            Some(length) => place = place.saturating_add(length),
            None => return Some(place),
        }
    }
    None
}

// Whether a text may begin behind these bytes, which are the front of a JSON text.
fn may_begin(front: &[u8]) -> bool {
    for byte in front.iter().rev() {
        if !is_blank(*byte) {
            return matches!(*byte, b'[' | b'{' | b',' | b':');
        }
    }
    true
}

// Where a line begins, counted from 1.
fn beginning_of(input: &[u8], line: usize) -> usize {
    let mut left = line;
    for (place, byte) in input.iter().enumerate() {
        if left <= 1 {
            return place;
        }
        if *byte == b'\n' {
            left -= 1;
        }
    }
    input.len()
}

/// The column of the first fault of the text that begins at this line and column of an input, both counted from 1;
/// None where none begins there, or it has no fault.
pub fn fault_in_text(input: &[u8], line: usize, column: usize) -> Option<usize> {
    let at = beginning_of(input, line).saturating_add(column.saturating_sub(1));
    if input.get(at) != Some(&b'"') || !may_begin(input.get(..at)?) {
        return None;
    }
    let before = before_fault(input.get(at.saturating_add(1)..)?)?;
    Some(column.saturating_add(before).saturating_add(1))
}

fn is_blank(byte: u8) -> bool {
    matches!(byte, b' ' | b'\t' | b'\n' | b'\r')
}

// The last place before this one with a byte that is no blank.
fn last_before(input: &[u8], place: usize) -> Option<usize> {
    let mut left = place;
    for _ in 0..place {
        left = left.saturating_sub(1);
        if !is_blank(*input.get(left)?) {
            return Some(left);
        }
    }
    None
}

// Whether a bracket that comes directly behind this byte closes too early.
fn closes_early(before: u8, bracket: u8) -> bool {
    match bracket {
        b'}' => matches!(before, b'[' | b',' | b':'),
        b']' => matches!(before, b'{' | b',' | b':'),
        _ => false,
    }
}

// The line and column of a place.
fn spot_of(input: &[u8], place: usize) -> Spot {
    let mut spot = Spot { line: 1, column: 1 };
    for byte in input.iter().take(place) {
        if *byte == b'\n' {
            spot.line = spot.line.saturating_add(1);
            spot.column = 1;
        } else {
            spot.column = spot.column.saturating_add(1);
        }
    }
    spot
}

/// Where a bracket closes too early, which the reader passes over: it tells this spot, of what comes next. None where no
/// such bracket is the last before it.
pub fn early_close(input: &[u8], told: Spot) -> Option<Spot> {
    let next = beginning_of(input, told.line).saturating_add(told.column.saturating_sub(1));
    let place = last_before(input, next)?;
    let before = last_before(input, place)?;
    if !closes_early(*input.get(before)?, *input.get(place)?) {
        return None;
    }
    Some(spot_of(input, place))
}
