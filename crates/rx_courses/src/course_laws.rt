//! Laws of courses, which no command needs and a caller may cite.

ghost use Rattle.rx_courses.specs.Calls.{AreCommands};
ghost use Rattle.rx_courses.specs.Courses.{WordsEndOnce, TagsOnce, ClosingsOnce, NoNoteIsLost};
ghost use Rattle.rx_courses.specs.LeftNamed.{CommandsNameWhatIsLeft};
ghost use Rattle.rx_courses.specs.Tellings.{TellsInOrder, EachIsToldOnce};
ghost use Rattle.rx_courses.specs.NotesTold.{TellsEachNote};
ghost use Rattle.rx_courses.specs.NothingBehind.{NothingBehind};
ghost use Rattle.rx_courses.specs.Refused.{RefusedIsUnchanged};
ghost use Rattle.rx_courses.specs.RootsTold.{TellsEachRoot};
ghost use Rattle.rx_courses.specs.Runs.{LanesRun};
ghost use Rattle.rx_courses.specs.Values.{ValuesOnce};
ghost use Rattle.rx_courses.specs.Serving.{NamesAtOnce, ServesOneAtATime, NothingIsStuck};

use rx_book::Resource;
use rx_resource::Token;

/// Each call of an engine that changes it is a command of a course, so that the laws speak of all of them.
pub fn calls_are_commands<A: Copy>()
    ensures { AreCommands A ⟦<Token as Resource>⟧ }
{}

/// Each note that a plain command adds to the book's becomes one effect, in order.
pub fn no_note_is_lost()
    ensures { NoNoteIsLost ⟦<Token as Resource>⟧ }
{}

/// Of any course of a new engine, for each tag: as many releases of it were put into lanes, or are still to come,
/// as it was handed in.
pub fn tags_once()
    ensures { TagsOnce ⟦<Token as Resource>⟧ }
{}

/// Of any course of a new engine, for each word: as many last effects for it were put into lanes, or are still to come,
/// as roles were given to it.
pub fn words_end_once()
    ensures { WordsEndOnce ⟦<Token as Resource>⟧ }
{}

/// For each word: as many closings stood in an answer, or are still to come, as nodes were opened with this word
/// and the wish to be told.
pub fn closings_once()
    ensures { ClosingsOnce ⟦<Token as Resource>⟧ }
{}

/// Of each lane: what was taken there, and what waits there, is what was put there, and what was given back.
pub fn each_is_told_once()
    ensures { EachIsToldOnce ⟦<Token as Resource>⟧ }
{}

/// Of each lane: all but releases, which may come before their turn, is told in the order in which it was put
/// there, where who gives something back gives what it was told last.
pub fn tells_in_order()
    ensures { TellsInOrder ⟦<Token as Resource>⟧ }
{}

/// What the lanes of an engine go through is a course of lanes, so that the laws of `rx_lanes` hold of them.
pub fn lanes_run()
    ensures { LanesRun ⟦<Token as Resource>⟧ }
{}

/// A lane that got something by a command is named by the answer, or is being served.
pub fn lanes_are_named_at_once()
    ensures { NamesAtOnce ⟦<Token as Resource>⟧ }
{}

/// Who serves a lane serves it alone until it gives it up, or asks for more and is given nothing.
pub fn lanes_are_served_one_at_a_time()
    ensures { ServesOneAtATime ⟦<Token as Resource>⟧ }
{}

/// A lane that has something, and that nobody serves, was named by an answer.
pub fn nothing_is_stuck()
    ensures { NothingIsStuck ⟦<Token as Resource>⟧ }
{}

/// A lane that a command leaves, and that nobody serves, was left before or is named by the answer; who serves a lane behind
/// the command served it before.
pub fn commands_name_what_is_left()
    ensures { CommandsNameWhatIsLeft ⟦<Token as Resource>⟧ }
{}

/// The effects of a command that tell are the notes that it adds to the book's, in order, each for the role that its
/// node has.
pub fn each_note_is_told()
    ensures { TellsEachNote ⟦<Token as Resource>⟧ }
{}

/// Of a root that alone has its word in its lane: what was told there under this word, and then what waits, are its
/// notes, in order: items, then at most one end, then nothing.
pub fn roots_are_told_in_order()
    ensures { TellsEachRoot ⟦<Token as Resource>⟧ }
{}

/// For each value: as many effects that carry it were put into lanes as the answers of its commands counted.
pub fn values_once()
    ensures { ValuesOnce ⟦<Token as Resource>⟧ }
{}

/// Each effect that carries a word finds a role of that word which has not ended: so of a word that was given to one
/// role nothing comes behind its last effect.
pub fn nothing_comes_behind_a_last_effect()
    ensures { NothingBehind ⟦<Token as Resource>⟧ }
{}

/// Whatever may follow a refused command may follow the state before it, and the other way round, with the same effects and answers.
pub fn refused_is_unchanged()
    ensures { RefusedIsUnchanged ⟦<Token as Resource>⟧ }
{}
