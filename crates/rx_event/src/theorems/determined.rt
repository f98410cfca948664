//! That the order of what is forced does not matter.

ghost use Rattle.rx_event.specs.Kept.{Kept};
ghost use Rattle.rx_event.specs.Claims.Determined.{StepsAreDetermined};
ghost use Rattle.rx_event.specs.Claims.Numbers.{NumbersDoNotMatter, OneOrder};
ghost use Rattle.rx_event.specs.Claims.Seen.{SeenAlike};

/// One caller's event leads to one outcome, in whatever order the events come that it forces: to
/// the same open nodes, connected hubs, held and waiting resources and debts, each node being told
/// the same. Two outcomes differ in the places of ends and closings alone.
pub fn steps_are_determined()
    ensures { (base : Kept) → StepsAreDetermined base }
{}

/// Histories that are the same but for the numbers of what was made go on alike: the same is forced
/// and allowed in both, and one step leaves both the same, in whatever order what it forces comes in
/// each. So of two runs of the same calls each node is told the same, and each resource fares so.
pub fn numbers_do_not_matter()
    ensures { (base : Kept) → NumbersDoNotMatter base }
{}

/// In one order, a connection first, then by rule and by number, each lawful history comes to just
/// one end at which nothing is forced.
pub fn one_order_comes_to_an_end()
    ensures { (base : Kept) → OneOrder base }
{}

/// What a caller can see of such histories is the same: all that a refusal may rest on.
pub fn callers_see_no_numbers()
    ensures { (base : Kept) → SeenAlike base }
{}
