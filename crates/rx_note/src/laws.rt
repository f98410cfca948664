//! What the gate has proved of the definitions.

ghost use Rattle.rx_note.specs.Notes.{GrammarLaw};

/// From a grammar that has not ended, just the lists of items with at most one end behind them
/// are accepted whole.
pub fn accepted_whole()
    ensures { GrammarLaw }
{}
