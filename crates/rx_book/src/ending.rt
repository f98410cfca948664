//! Items, ends and unsubscriptions.

ghost use Rattle.std.specs.Prelude.{◌≡◌, ◌<◌, Some, length, slice_get};
ghost use Rattle.rx_book.specs.Requests.{next_request, end_request, abort_request, dispose_request};
ghost use Rattle.rx_book.specs.Requests.{decline_request, fail_request};
ghost use Rattle.rx_book.specs.Answers.{AnswersPlace, AnswersPlaceOrWant};
ghost use Rattle.rx_book.specs.Courses.{EmitsAll, EmitsWithin};

use crate::Book;
use crate::call::Call;
use rx_event::{Refusal, Terminal};
use rx_resource::Resource;
use rx_tree::Key;

/// What came of an item that was to come to so many notes at most.
#[derive(Clone, Copy, Debug, PartialEq, Eq)]
pub enum ItemWithin {
    /// It was emitted: the place of its event.
    Told(u64),
    /// It comes to more notes than that, to so many, and was not emitted.
    Beyond(u64),
}

/// How many of several items were emitted, and why the next one was refused, where one was.
#[derive(Clone, Copy, Debug, PartialEq, Eq)]
pub struct Emitted {
    /// How many were emitted.
    pub count: usize,
    /// Why the item behind these was refused; None where each was emitted.
    pub refused: Option<Refusal>,
}

// One of several items.
fn item(values: &[i64], at: usize) -> i64
    requires { at < length values.now }
    ensures { slice_get values.now at ≡ Some result }
{
    values[at]
}

impl<R: Resource> Book<R> {
    /// A leaf emits an item (OnNext), which goes up to its root, but stops on its way at the first source
    /// of a FlatMap or a Switch: that is told to project it, and owes an inner for it (FlatMap, Switch, at
    /// reactivex.io); and at the first notifier's place, where it fires the TakeUntil, which ends completed
    /// at once, and tells nobody. Answers the place of the item's event. Refused, in this order: `Gone`,
    /// `WrongKind` where the node is no leaf, `TooMany` where the item would visit more than 1,048,576
    /// nodes, `Full`, which counts the end of the inner that is owed too, `NoMemory`. A refusal changes
    /// nothing.
    pub fn next(&mut self, leaf: Key, value: i64) -> Result<u64, Refusal>
        ensures { AnswersPlaceOrWant self.old (next_request self.old leaf value) self.new result }
    {
        match self.next_within(leaf, value, u64::MAX) {
            Ok(ItemWithin::Told(place)) => Ok(place),
            Ok(ItemWithin::Beyond(_)) => unreachable!(),
            Err(why) => Err(why),
        }
    }

    /// A leaf emits an item, as by [`Book::next`], where it comes to so many notes at most by itself, the ends that it
    /// forces not counted; else nothing changes, and how many it comes to is answered.
    #[inline(always)]
    pub fn next_within(&mut self, leaf: Key, value: i64, most: u64) -> Result<ItemWithin, Refusal>
        ensures { EmitsWithin most self.old leaf value self.new result }
    {
        let way = self.ground.route(leaf, value)?;
        if way.reach.notes > most {
            return Ok(ItemWithin::Beyond(way.reach.notes));
        }
        self.ground
            .make_room_to_tell(way.reach.events, way.reach.notes)?;
        let place = self.ground.begin();
        self.ground.write_item(leaf, value, way);
        self.ground.settle();
        Ok(ItemWithin::Told(place))
    }

    /// A leaf emits several items, one after another, up to the first that is refused: as so many calls of
    /// [`Book::next`].
    pub fn next_all(&mut self, leaf: Key, values: &[i64]) -> Emitted
        ensures { EmitsAll self.old leaf values.now self.new result }
    {
        let mut count = 0;
        while count < values.len() {
            self.promise();
            match self.next(leaf, item(values, count)) {
                Ok(_) => count += 1,
                Err(why) => {
                    return Emitted {
                        count,
                        refused: Some(why),
                    };
                }
            }
        }
        Emitted {
            count,
            refused: None,
        }
    }

    /// A leaf ends (OnCompleted or OnError), and after it each node that mirrors it or of which it is the
    /// notifier. An error ends a FlatMap or a Switch above too; a completion does once its source has
    /// completed, no inner of it is open (FlatMap, Switch) and it owes nothing (this project's own).
    /// Answers the place of the leaf's end. Refused, in this order: `Gone`, `WrongKind` where the node is
    /// no leaf. It takes no memory. A refusal changes nothing.
    pub fn end(&mut self, leaf: Key, terminal: Terminal) -> Result<u64, Refusal>
        ensures { AnswersPlace self.old (end_request self.old leaf terminal) self.new result }
    {
        self.answer_free(Call::End(leaf, terminal))
    }

    /// Ends a node that is no leaf with an error (OnError), as an operator that fails does, and after it
    /// each node that mirrors it, of which it is the notifier, or of which it is the source or an inner;
    /// answers the place of its end. `code` is any `u32`. Refused, in this order: `Gone`, `WrongKind` where
    /// the node is a leaf, `HasChild` where a node below it is open: a FlatMap or a Switch that owes
    /// something is then ended by [`Book::fail`]. It takes no memory. A refusal changes nothing.
    pub fn abort(&mut self, node: Key, code: u32) -> Result<u64, Refusal>
        ensures { AnswersPlace self.old (abort_request self.old node code) self.new result }
    {
        self.answer_free(Call::Abort(node, code))
    }

    /// Declines an item that was projected to a FlatMap or a Switch: it gets no inner observable (that a
    /// caller projects by hand is this project's own); answers the place of its event. Where the source
    /// has completed, no inner is open and nothing more is owed, the node then completes. Refused, in this
    /// order: `Gone`, `WrongKind` where the node is neither, `NothingOwed` where each projected item was
    /// given an inner or declined. It takes no memory. A refusal changes nothing.
    pub fn decline(&mut self, merging: Key) -> Result<u64, Refusal>
        ensures { AnswersPlace self.old (decline_request self.old merging) self.new result }
    {
        self.answer_free(Call::Decline(merging))
    }

    /// Ends a FlatMap or a Switch with an error, as where an item that was projected to it gives no
    /// observable but fails, and closes all below it, its inners too; after it each node that mirrors it,
    /// of which it is the notifier, or of which it is the source or an inner ends; answers the place of its
    /// end. `code` is any `u32`. Refused, in this order: `Gone`, `WrongKind` where the node is neither,
    /// `NothingOwed` where each projected item was given an inner or declined. It takes no memory. A
    /// refusal changes nothing.
    pub fn fail(&mut self, merging: Key, code: u32) -> Result<u64, Refusal>
        ensures { AnswersPlace self.old (fail_request self.old merging code) self.new result }
    {
        self.answer_free(Call::Fail(merging, code))
    }

    /// Unsubscribes a root, and closes all below it, the inners of a FlatMap or a Switch too; what these
    /// owed is owed no more. Answers the place of its event. Notes from before are still handed out. A root
    /// that is closed already is `Gone`. Refused, in this order: `Gone`, `NotRoot`. It takes no memory. A
    /// refusal changes nothing.
    pub fn dispose(&mut self, root: Key) -> Result<u64, Refusal>
        ensures { AnswersPlace self.old (dispose_request self.old root) self.new result }
    {
        self.answer_free(Call::Dispose(root))
    }
}
