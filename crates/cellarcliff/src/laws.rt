//! Laws of the calls on a handle, of an engine or a live book, which no call needs and a caller may cite.

ghost use Rattle.cellarcliff.specs.Courses.{AreCallsCourses, AreTicketsOwn, AreEffectsToldOnce};
ghost use Rattle.cellarcliff.specs.LanesServed.{AreEffectsToldInOrder, AreRootsTold, AreLanesServedOneByOne, StepsLeaveNothing, CallsTendEachLane, RefusedCallsChangeNothing};
ghost use Rattle.cellarcliff.specs.LiveCourses.{AreAnswersHandedOut};
ghost use Rattle.cellarcliff.specs.WordsEnded.{EndEachOnce};

use rx_book::Resource;
use rx_courses::{
    closings_once, each_is_told_once, lanes_are_served_one_at_a_time,
    nothing_comes_behind_a_last_effect, nothing_is_stuck, refused_is_unchanged,
    roots_are_told_in_order, tags_once, tells_in_order, values_once, words_end_once,
};
use rx_resource::Token;
use rx_turns::{
    no_lane_is_lost, nothing_is_astray_where_the_outermost_hands_out_nothing,
    nothing_is_left_where_nothing_is_handed_out,
};

/// Any calls on one handle, from `cellar_new` on and without `cellar_drop`, by which fewer than 2^64 - 1 effects were
/// handed out, are a course of its engine, with the same tags, in which the same effects are told, in the order in which
/// they were handed out; what came again under a ticket that was given before counts once; and where no call passed or
/// stopped, nothing came back. So each law of `rx_courses` holds of them.
pub fn calls_are_courses()
    ensures { AreCallsCourses ⟦<Token as Resource>⟧ }
{}

/// Of the same calls: no ticket is given to two effects, and each is 1 or more.
pub fn tickets_are_own()
    ensures { AreTicketsOwn ⟦<Token as Resource>⟧ }
{}

/// Of the same calls, until `cellar_finish` is done: by whatever test, as many effects were handed out as the commands
/// put into lanes, and as came back, which were not begun; and for each tag, as many releases as it was handed in with
/// the status 0, and as came back.
pub fn effects_are_told_once()
    ensures { AreEffectsToldOnce ⟦<Token as Resource>⟧ }
{
    each_is_told_once();
    tags_once();
}

/// Of the same calls, where what comes back is what was told last of its lane: of each lane all but releases, which may
/// come before their turn, was told, or waits there, in the order in which the commands put it there.
pub fn effects_are_told_in_order()
    ensures { AreEffectsToldInOrder ⟦<Token as Resource>⟧ }
{
    tells_in_order();
    nothing_is_stuck();
}

/// Of the same calls, for each root that alone has its word in its lane: what was told there under this word, and then
/// what waits, are its notes, in order: items, then at most one end, then nothing.
pub fn roots_hear_in_order()
    ensures { AreRootsTold ⟦<Token as Resource>⟧ }
{
    roots_are_told_in_order();
}

/// Of the same calls, for each word: as many last effects for it were put into lanes, or are still to come, as roles were
/// given to it, and each effect that has it finds a role that has not ended, so that of a word that was given to one role
/// none comes behind the last; and as many closings stood in an answer, or are still to come, as were wished for with it. Each
/// value is carried by as many effects as the answers counted. So a face knows when it may let either go.
pub fn words_and_values_end_once()
    ensures { EndEachOnce ⟦<Token as Resource>⟧ }
{
    words_end_once();
    nothing_comes_behind_a_last_effect();
    closings_once();
    values_once();
}

/// Of any calls on one handle, from whenever on: who serves a lane serves it alone, and nobody else is given
/// anything of it, until that stack gives it up, or is given nothing more of it.
pub fn lanes_are_served_one_by_one()
    ensures { AreLanesServedOneByOne ⟦<Token as Resource>⟧ }
{
    lanes_are_served_one_at_a_time();
}

/// A step that hands out nothing leaves nothing to its turn, nor to a call deeper on its stack; and at depth 1 nothing is
/// astray then, but for want of room.
pub fn steps_leave_nothing()
    ensures { StepsLeaveNothing ⟦<Token as Resource>⟧ }
{
    nothing_is_left_where_nothing_is_handed_out();
    nothing_is_astray_where_the_outermost_hands_out_nothing();
}

/// Of any calls on one handle, from `cellar_new` on and without `cellar_drop`: what waits in a lane that nobody serves is due to
/// a turn or astray, and a lane that a stack serves is in hand of a turn of that stack. So where no turn has anything to do and
/// nothing is astray, nothing waits in any lane.
pub fn no_effect_is_lost()
    ensures { CallsTendEachLane ⟦<Token as Resource>⟧ }
{
    no_lane_is_lost();
}

/// A step with a status that is not 0 tells nothing of its command, and the command changes nothing but room, a
/// checkpoint and the hubs of shares: what is due to each turn and in hand, the ticket that was given last and what is astray
/// are what a step without a command finds. Then the turn goes on as it would without it. Where neither a checkpoint nor
/// hubs were made, whatever may follow the engine as it was may follow it as it is, and the other way round.
pub fn refused_calls_change_nothing()
    ensures { RefusedCallsChangeNothing ⟦<Token as Resource>⟧ }
{
    refused_is_unchanged();
}

/// Of any calls on one handle of a live book, from a new book until the handle keeps nothing and without `cellar_live_drop`: the
/// texts that were handed out with the status 0 are the answers to the lines that got 0 or 1, in order and each
/// once, and then that of the end; and each name that an accepted line hands in is released in exactly one of
/// them behind that, before it is handed in again, and no other name is.
pub fn answers_are_handed_out_once()
    ensures { AreAnswersHandedOut }
{}
