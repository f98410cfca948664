//! What is proved of dumps and names as definitions.

ghost use Rattle.rx_dump.specs.Claims.Dumps.{IsCompact, IsReadBack};
ghost use Rattle.rx_dump.specs.Claims.NoNames.{DumpHasNoNames, VerdictsAgree};

/// The dump of a history is the compact text of a JSON value, and a newline; and that value is read
/// as the history.
#[tactic(auto, using(crate::proofs::ReadBack::read_back, crate::proofs::Compact::compact))]
pub fn a_dump_is_read_back()
    ensures compact { IsCompact }
    ensures read_back { IsReadBack }
{}

/// A dump is an input of which it is itself the dump, and has no names; without names the text of a verdict is
/// that of a verdict alone.
pub fn a_dump_alone_has_no_names()
    ensures no_names { DumpHasNoNames }
    ensures same_verdict { VerdictsAgree }
{}
