//! What holds of the calls of a face, which a caller may cite.

ghost use Rattle.rx_turns.specs.Courses.{CallsAreCourses};
ghost use Rattle.rx_turns.specs.Promises.{NothingIsLeft, NothingIsAstray, HoldsWhatItHands, LeavesOthersAlone};
ghost use Rattle.rx_turns.specs.Tended.{LosesNoLane};

use rx_book::Resource;
use rx_cellar::words_find_their_lanes;
use rx_courses::commands_name_what_is_left;
use rx_resource::Token;

/// Each call is a course of the engine, so that the laws of `rx_courses` hold of it: a step takes what it hands out,
/// alone, or takes nothing and hands out once more what was not begun; a pass and a stop take nothing.
pub fn calls_are_courses()
    ensures { CallsAreCourses ⟦<Token as Resource>⟧ }
{}

/// A step hands out nothing only where its turn has nothing any more, nor has any deeper call of its stack.
pub fn nothing_is_left_where_nothing_is_handed_out()
    ensures { NothingIsLeft }
{}

/// A step of depth 1 hands out nothing only where nothing is astray any more, but for want of room.
pub fn nothing_is_astray_where_the_outermost_hands_out_nothing()
    ensures { NothingIsAstray }
{
    words_find_their_lanes();
}

/// What a step hands out is in hand then, of its turn or of a deeper call of its stack.
pub fn what_is_handed_out_is_in_hand()
    ensures { HoldsWhatItHands }
{}

/// While a turn is served, each other turn keeps what it has in hand and what is due to it.
pub fn other_turns_keep_theirs()
    ensures { LeavesOthersAlone }
{}

/// Whatever calls a face makes: what waits in a lane that nobody serves is due to a turn or astray, and a lane that a stack
/// serves is in hand of a turn of that stack. So nothing waits where no turn has anything to do and nothing is astray.
pub fn no_lane_is_lost()
    ensures { LosesNoLane ⟦<Token as Resource>⟧ }
{
    words_find_their_lanes();
    commands_name_what_is_left();
}
