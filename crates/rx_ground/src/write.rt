//! One event, written on the register and on the tree together. None of these takes memory.

ghost use Rattle.std.specs.Prelude.{◌≡◌, ◌+◌, ◌<◌, ◌≤◌, true, [], ◌∷◌, length, None, IsSome, IsTrue, IfSome, IfNone, MatchOption};
ghost use Rattle.rx_event.specs.declared.event.Event.{Event};
ghost use Rattle.rx_event.specs.Events.{is_root as is_root_in, is_merging};
ghost use Rattle.rx_event.specs.Marks.{after_child};
ghost use Rattle.rx_ground.specs.Shown.{waiting_in};
ghost use Rattle.rx_event.specs.Tree.{at};
ghost use Rattle.rx_event.specs.Notes.{mail_of};
ghost use Rattle.rx_event.specs.Forced.{IsSettled};
ghost use Rattle.rx_event.specs.Resources.{is_waiting};
ghost use Rattle.rx_resource.specs.declared.Life.{Life};
ghost use Rattle.rx_slots.specs.Slots.{find};
ghost use Rattle.rx_tree.specs.Resources.{is_held_at, is_owned_at};
ghost use Rattle.rx_hub.specs.After.{end_by};
ghost use Rattle.rx_ground.specs.Reached.{MakesOnly};
ghost use Rattle.rx_ground.specs.Ties.{IsReady, IsListed, Remarks};
ghost use Rattle.rx_ground.specs.Wrote.{IsBetween, Wrote, ChangesResources, ChangesMarks, ClosesNodes, IsCut};

use crate::base::Ground;
use crate::route::{Way, pass};
use rx_event::{Event, Mail, Terminal};
use rx_hub::LastEnd;
use rx_note::Note;
use rx_register::Register;
use rx_resource::{Handed, Resource};
use rx_tree::{Key, ResKey, Tree};

/// Queues the note of the end of a root; nothing for another node.
#[inline(always)]
fn tell_end(register: &mut Register, node: u64, terminal: Terminal, is_root: bool)
    requires root { is_root ≡ at is_root_in register.old.history node }
    requires room { length (mail_of register.old.history (Event.End node terminal)) ≤ register.old.mail_room }
    requires pending { register.old.pending ≡ [] }
    ensures told { register.new.pending ≡ mail_of register.old.history (Event.End node terminal) }
    ensures kept { register.new ≡ record register.old { pending = register.new.pending; mail_room = register.new.mail_room } }
    ensures mail_room { register.old.mail_room ≡ register.new.mail_room + length (mail_of register.old.history (Event.End node terminal)) }
{
    if is_root {
        let place = register.len();
        register.tell(Mail {
            place,
            to: node,
            note: Note::End(terminal),
        });
    }
}

/// Marks the node above as one whose child ended, which stood at its source's place or not.
#[inline(always)]
fn mark_end<R: Resource>(
    tree: &mut Tree<R>,
    above: Option<Key>,
    is_source: bool,
    terminal: Terminal,
)
    requires there { IfSome above (λ key. IsSome (find tree.old.nodes key)) }
    requires child { IfSome above (λ key. IfSome (find tree.old.nodes key) (λ node. 0 < node.marks.open_children)) }
    ensures marked { IfSome above (λ key. IfSome (find tree.old.nodes key) (λ node. Remarks tree.old tree.new key (after_child is_source (is_merging node.made) terminal))) }
    ensures none { IfNone above (tree.new ≡ tree.old) }
    ensures rest { tree.new.nodes ≡ record tree.old.nodes { entries = tree.new.nodes.entries } }
    ensures resources { tree.new.resources ≡ tree.old.resources }
{
    if let Some(key) = above {
        tree.mark_end(key, is_source, terminal);
    }
}

impl<R: Resource> Ground<R> {
    /// Accepts a fresh resource at an open node, for which there is room.
    #[inline(always)]
    pub fn write_accept(&mut self, node: Key, resource: R) -> ResKey
        requires between { IsBetween R.Resource self.old }
        requires ready { IsReady self.old.register (Event.Accept node.number (R.tag_of resource)) }
        requires open { IsSome (find self.old.tree.nodes node) }
        requires live { R.life_of resource ≡ Life.Live }
        requires unused { R.uses_of resource ≡ 0 }
        requires room { 0 < self.old.tree.resources.room }
        ensures wrote { Wrote R.Resource self.old (Event.Accept node.number (R.tag_of resource) ∷ []) self.new }
        ensures frame { ChangesResources self.old self.new }
        ensures number { result.number ≡ length self.old.register.history }
        ensures held { is_held_at self.new.tree result ≡ true }
    {
        self.register.promise();
        self.tree.promise();
        let number = self.register.len();
        let tag = resource.tag();
        let Ok(res) = self.tree.hold(node, number, resource) else {
            unreachable!()
        };
        self.register.write(Event::Accept(node.number, tag));
        res
    }

    /// Uses a held resource on a word, and answers its word.
    #[inline(always)]
    pub fn write_use(&mut self, res: ResKey, word: u64) -> u64
        requires between { IsBetween R.Resource self.old }
        requires ready { IsReady self.old.register (Event.Use res.number) }
        requires held { IsTrue (is_held_at self.old.tree res) }
        ensures wrote { Wrote R.Resource self.old (Event.Use res.number ∷ []) self.new }
        ensures frame { ChangesResources self.old self.new }
    {
        self.register.promise();
        self.tree.promise();
        let answer = self.tree.apply(res, word);
        self.register.write(Event::Use(res.number));
        answer
    }

    /// Removes an owned resource from its node.
    #[inline]
    pub fn write_remove(&mut self, res: ResKey)
        requires between { IsBetween R.Resource self.old }
        requires ready { IsReady self.old.register (Event.Remove res.number) }
        requires owned { IsTrue (is_owned_at self.old.tree res) }
        ensures wrote { Wrote R.Resource self.old (Event.Remove res.number ∷ []) self.new }
        ensures frame { ChangesResources self.old self.new }
    {
        self.register.promise();
        self.tree.promise();
        self.tree.unhold(res);
        self.register.write(Event::Remove(res.number));
    }

    /// Declines an item that was projected to this FlatMap or Switch.
    #[inline]
    pub fn write_decline(&mut self, merging: Key)
        requires between { IsBetween R.Resource self.old }
        requires ready { IsReady self.old.register (Event.Decline merging.number) }
        requires open { IsSome (find self.old.tree.nodes merging) }
        ensures wrote { Wrote R.Resource self.old (Event.Decline merging.number ∷ []) self.new }
        ensures frame { ChangesMarks self.old self.new }
    {
        self.register.promise();
        self.tree.promise();
        self.tree.mark_decline(merging);
        self.register.write(Event::Decline(merging.number));
    }

    /// Emits an item, which goes its whole way: each root that it reaches is told of it, as often as it is
    /// reached, each FlatMap or Switch is told to project it, and each TakeUntil fires. Where `way` has its one
    /// stop, it is taken there without a walk.
    #[inline(always)]
    pub fn write_item(&mut self, leaf: Key, value: i64, way: Way)
        requires between { IsBetween R.Resource self.old }
        requires ready { IsReady self.old.register (Event.Item leaf.number value) }
        requires open { IsSome (find self.old.tree.nodes leaf) }
        requires only { MakesOnly self.old.tree.nodes self.old.hubs.hubs leaf way.only }
        ensures wrote { Wrote R.Resource self.old (Event.Item leaf.number value ∷ []) self.new }
        ensures frame { ChangesMarks self.old self.new }
    {
        self.register.promise();
        self.tree.promise();
        pass(
            &mut self.register,
            &mut self.tree,
            &self.hubs,
            &mut self.route,
            way.only,
            leaf,
            value,
        );
        self.register.write(Event::Item(leaf.number, value));
    }

    /// Moves out a node and all below it onto the list, which gives their room back, and lets them leave the
    /// hubs. A connection among them ended so if it ended by itself.
    #[inline(always)]
    pub(crate) fn cut(&mut self, node: Key, ended: Option<LastEnd>)
        requires between { IsBetween R.Resource self.old }
        requires open { IsSome (find self.old.tree.nodes node) }
        ensures { IsCut self.old self.new node.number ended }
    {
        self.register.promise();
        self.tree.promise();
        let from = self.closed.len();
        self.tree.close_below(node, &mut self.closed);
        self.hubs
            .leave_closed(&self.closed.as_slice()[from..], ended);
    }

    /// Ends an open node, and closes all below it. Of a connection its hub keeps how it ended.
    pub fn write_end(&mut self, node: Key, terminal: Terminal)
        requires between { IsBetween R.Resource self.old }
        requires ready { IsReady self.old.register (Event.End node.number terminal) }
        requires open { IsSome (find self.old.tree.nodes node) }
        ensures wrote { Wrote R.Resource self.old (Event.End node.number terminal ∷ []) self.new }
        ensures frame { ClosesNodes self.old self.new node.number
            (end_by (length self.old.register.history) (Event.End node.number terminal)) }
    {
        self.register.promise();
        self.tree.promise();
        let record = self.tree.at(node.slot);
        let above = record.parent();
        let is_source = record.is_source();
        let is_root = record.is_root();
        let place = self.register.len();
        self.cut(node, Some(LastEnd { place, terminal }));
        tell_end(&mut self.register, node.number, terminal, is_root);
        self.register.write(Event::End(node.number, terminal));
        self.tree.promise();
        mark_end(&mut self.tree, above, is_source, terminal);
    }

    /// Closes an open root, and all below it.
    #[inline]
    pub fn write_close(&mut self, node: Key)
        requires between { IsBetween R.Resource self.old }
        requires ready { IsReady self.old.register (Event.Close node.number) }
        requires open { IsSome (find self.old.tree.nodes node) }
        ensures wrote { Wrote R.Resource self.old (Event.Close node.number ∷ []) self.new }
        ensures frame { ClosesNodes self.old self.new node.number None }
    {
        self.register.promise();
        self.tree.promise();
        self.cut(node, None);
        self.register.write(Event::Close(node.number));
    }

    /// Hands out a resource that waits; None where none does.
    #[inline(always)]
    pub fn write_take(&mut self) -> Option<Handed<R>>
        requires between { IsBetween R.Resource self.old }
        requires settled { IsSettled self.old.register.base self.old.register.history }
        requires room { (r : _) → is_waiting self.old.register.history r ≡ true → IsReady self.old.register (Event.Take r) }
        ensures wrote { IfSome result (λ handed. Wrote R.Resource self.old (Event.Take handed.0 ∷ []) self.new) }
        ensures none { IfNone result (self.new ≡ self.old) }
        ensures waited { MatchOption result (waiting_in self.old.tree ≡ []) (IsListed R.Resource self.old.tree) }
        ensures frame { ChangesResources self.old self.new }
    {
        self.register.promise();
        self.tree.promise();
        let (number, resource) = self.tree.take_waiting()?;
        self.register.write(Event::Take(number));
        Some(Handed::new(number, resource))
    }
}
