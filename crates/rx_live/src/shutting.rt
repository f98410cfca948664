//! The end of a session, without memory.

ghost use Rattle.rx_live.specs.Session.{session_of, IsSound};
ghost use Rattle.rx_live.specs.Shut.{Shuts};

use crate::engine::Engine;
use rx_line::Names;

/// Gives back all leases and closes everything. What was held waits, under its name.
pub fn shut(engine: &mut Engine)
    requires { IsSound (session_of engine.old) }
    ensures { Shuts (session_of engine.old) (session_of engine.new) }
{
    engine.book.shut();
    engine.book.promise();
    engine.leases = Names::new(engine.alloc);
}
