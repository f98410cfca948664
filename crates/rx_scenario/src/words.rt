//! The words of commands, in lists, and the one that is nearest to a word that is none of them. Nothing is proved of them:
//! what is read is defined in `specs/Reading.antt`.

/// Where a node is opened.
pub const PLACES: &str = "root, source, inner, notifier";

/// What a node does.
pub const KINDS: &str = "leaf, pass, flat, switch, until, sub";

/// How a hub is connected.
pub const MODES: &str = "auto, manual";

// The commands of a book, and the members of each, beside those that every step may have.
static MEMBERS: [(&str, &str); 18] = [
    ("using", "name, place, of, res"),
    ("open", "name, place, of, kind, hub, connection"),
    ("hold", "node, res"),
    ("apply", "res, word"),
    ("remove", "res"),
    ("lease", "res, name"),
    ("return", "lease"),
    ("next", "node, value"),
    ("end", "node, error"),
    ("abort", "node, error"),
    ("fail", "node, error"),
    ("decline", "node"),
    ("dispose", "node"),
    ("hub", "name, mode"),
    ("connect", "hub, name"),
    ("disconnect", "hub"),
    ("drain", ""),
    ("checkpoint", ""),
];

/// The members of a command of a book, beside those that every step may have; None where it is no such command.
pub fn members_of(command: &str) -> Option<&'static str> {
    for &(known, members) in &MEMBERS {
        if known == command {
            return Some(members);
        }
    }
    None
}

/// Whether the word stands in the list.
pub fn is_among(word: &str, list: &str) -> bool {
    !word.is_empty() && list.split(", ").any(|known| known == word)
}

// How many bytes both have in common at their fronts.
fn same_front(left: &[u8], right: &[u8]) -> usize {
    let most = left.len().min(right.len());
    for place in 0..most {
        if left[place] != right[place] {
            return place;
        }
    }
    most
}

// How many bytes both have in common at their ends.
fn same_back(left: &[u8], right: &[u8]) -> usize {
    let most = left.len().min(right.len());
    for back in 0..most {
        if left[left.len() - 1 - back] != right[right.len() - 1 - back] {
            return back;
        }
    }
    most
}

// How many bytes of the longer one lie between what both have in common at their fronts and ends.
fn difference(left: &[u8], right: &[u8]) -> usize {
    let longest = left.len().max(right.len());
    let front = same_front(left, right);
    let (Some(left), Some(right)) = (left.get(front..), right.get(front..)) else {
        return longest;
    };
    longest
        .saturating_sub(front)
        .saturating_sub(same_back(left, right))
}

/// The word of the list that differs from this one in the shortest stretch, of at most two letters and of
/// fewer than it has.
pub fn nearest(word: &str, list: &'static str) -> Option<&'static str> {
    let mut best = None;
    let mut least = 3;
    for known in list.split(", ") {
        let stretch = difference(word.as_bytes(), known.as_bytes());
        if stretch < least && stretch < known.len() {
            least = stretch;
            best = Some(known);
        }
    }
    best
}
