//! The grammar at a worked example.

use crate::same::same;
use rx_note::{AfterEnd, Grammar, Note, Terminal};

#[test]
fn nothing_comes_after_the_end(rt: HostRuntime) {
    let mut grammar = Grammar::new();
    let answers = [
        grammar.accept(&Note::Next(1)),
        grammar.accept(&Note::Project(1)),
        grammar.accept(&Note::Next(1)),
        grammar.accept(&Note::End(Terminal::Completed)),
        grammar.accept(&Note::Next(2)),
        grammar.accept(&Note::End(Terminal::Error(3))),
    ];
    same(
        &rt,
        answers,
        [Ok(()), Ok(()), Ok(()), Ok(()), Err(AfterEnd), Err(AfterEnd)],
    );
}
