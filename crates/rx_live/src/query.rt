//! Whether a node is open.

ghost use Rattle.std.specs.Prelude.{◌≡◌, string_bytes, IfOk};
ghost use Rattle.rx_live.specs.Session.{session_of};
ghost use Rattle.rx_live.specs.Dumps.{open_member, query_text};

use crate::engine::Engine;
use rx_line::ok_text;
use std::alloc::AllocError;

// The member that says whether the node is open, and the end of the answer.
fn open_member(is_open: bool) -> &'static str
    ensures { result.now ≡ open_member is_open }
{
    if is_open {
        ",\"open\":true}"
    } else {
        ",\"open\":false}"
    }
}

/// The answer that says whether a node of this name is open. It looks the name up, and changes nothing.
pub fn query_text(engine: &Engine, node: &str) -> Result<String, AllocError>
    ensures { IfOk result (λ s. string_bytes s ≡ query_text (session_of engine.now) node.now) }
{
    let mut text = ok_text(engine.alloc, engine.book.len())?;
    text.push_str(open_member(engine.node(node).is_some()))?;
    Ok(text)
}
