//! The opening of a node, written on the register and on the tree together. It takes no memory.

ghost use Rattle.std.specs.Prelude.{◌≡◌, ◌+◌, ◌<◌, ◌≤◌, true, [], ◌∷◌, length, option_map, false, None, IsSome, IfSome, IfNone};
ghost use Rattle.rx_event.specs.declared.event.Event.{Event};
ghost use Rattle.rx_event.specs.declared.event.Place.{Place};
ghost use Rattle.rx_event.specs.Events.{is_switch, named_by};
ghost use Rattle.rx_event.specs.Tree.{at};
ghost use Rattle.rx_slots.specs.Slots.{find};
ghost use Rattle.rx_tree.specs.Tree.{IsPlaced, is_on};
ghost use Rattle.rx_ground.specs.Wrote.{IsBetween, Wrote, IsCut, OpensNode};
ghost use Rattle.rx_ground.specs.Inners.{IsLeft, IsInner, HasNoInner, IsReplaced, ReplacesNone};
ghost use Rattle.rx_ground.specs.Ties.{IsReady, IsUndue, Remarks};
ghost use Rattle.rx_ground.specs.Ties.{opened_marks};
ghost use Rattle.rx_event.specs.declared.event.Kind.{Kind};
ghost use Rattle.rx_hub.specs.After.{with_made};
ghost use Rattle.rx_hub.specs.Hubs.{find_hub, AreBelow, IsFree, StandsAt};
ghost use Rattle.rx_ground.specs.Memory.{TakesOneNode};
ghost use Rattle.rx_ground.specs.Told.{IsFoundAt};
ghost use Rattle.rx_ground.specs.Shown.{list_room};

use crate::base::Ground;
use rx_event::{Event, Kind, Place};
use rx_hub::Hubs;
use rx_resource::Resource;
use rx_tree::{Key, Tree};

/// Marks a node as one at whose place a node was opened, an inner in the place of an open one or not. By an
/// opening at its source's or its notifier's place it has not to end.
#[inline(always)]
fn mark_place<R: Resource>(tree: &mut Tree<R>, replaces: bool, place: Place, key: Key)
    requires open { IsSome (find tree.old.nodes key) }
    requires room { IfSome (find tree.old.nodes key) (λ node. node.marks.open_children + 1 < 18446744073709551616) }
    requires owes { (f : _) → place ≡ Place.Inner f → IfSome (find tree.old.nodes key) (λ node. 0 < node.marks.owed) }
    requires quiet { is_on key tree.old.chain ≡ false → IsUndue tree.old.nodes key }
    ensures { Remarks tree.old tree.new key (opened_marks replaces place) }
{
    match place {
        Place::Root => {}
        Place::Source(_) => tree.mark_source(key),
        Place::Inner(_) => tree.mark_inner(key, replaces),
        Place::Notifier(_) => tree.mark_notifier(key),
    }
}

/// Marks the node above as one at whose place a node was opened, if there is one above.
#[inline(always)]
fn mark_opened<R: Resource>(tree: &mut Tree<R>, replaces: bool, place: Place, above: Option<Key>)
    requires there { IfSome above (λ key. IsSome (find tree.old.nodes key)) }
    requires found { IfSome above (λ key. IfSome (find tree.old.nodes key) (λ node. node.marks.open_children + 1 < 18446744073709551616)) }
    requires owes { (f : _) → place ≡ Place.Inner f → IfSome above (λ key. IfSome (find tree.old.nodes key) (λ node. 0 < node.marks.owed)) }
    requires quiet { IfSome above (λ key. is_on key tree.old.chain ≡ false → IsUndue tree.old.nodes key) }
    ensures marked { IfSome above (λ key. Remarks tree.old tree.new key (opened_marks replaces place)) }
    ensures none { IfNone above (tree.new ≡ tree.old) }
    ensures rest { tree.new.nodes ≡ record tree.old.nodes { entries = tree.new.nodes.entries } }
    ensures resources { tree.new.resources ≡ tree.old.resources }
{
    if let Some(key) = above {
        mark_place(tree, replaces, place, key);
    }
}

/// Lets a node that was opened join the hub that it subscribes to (Publish). Nothing for any other node.
#[inline(always)]
fn join(hubs: &mut Hubs, index: usize, _place: Place, kind: Kind, key: Key)
    requires there { (g : _) → kind ≡ Kind.Sub g → StandsAt hubs.old.hubs index g }
    requires newest { (g : _) → kind ≡ Kind.Sub g →
        IfSome (find_hub hubs.old.hubs g) (λ h. AreBelow key.number h.subscribers) }
    requires slot { (g : _) → kind ≡ Kind.Sub g → key.slot < hubs.old.slots }
    requires free { IsFree hubs.old.hubs key.slot }
    ensures { hubs.new ≡ record hubs.old { hubs = with_made key (Event.Open _place kind) hubs.old.hubs } }
{
    if let Kind::Sub(hub) = kind {
        hubs.subscribe(index, hub, key);
    }
}

impl<R: Resource> Ground<R> {
    /// The key of the open inner of a Switch; None where none is open.
    ///
    /// A Switch has two open children at most, its source and one inner, and only these are looked at.
    #[inline(never)]
    fn inner_of(&self, switch: Key) -> Option<Key>
        requires between { IsBetween R.Resource self.now }
        requires open { IsSome (find self.now.tree.nodes switch) }
        requires switches { at is_switch self.now.register.history switch.number ≡ true }
        ensures some { IfSome result (IsInner self.now.register.history self.now.tree.nodes switch.number) }
        ensures none { IfNone result (HasNoInner self.now.register.history switch.number) }
    {
        self.register.promise();
        let first = self.tree.first_child(switch)?;
        let made = self.tree.made(first)?;
        if made.inner_of().is_some() {
            return Some(first);
        }
        self.tree.next_sibling(first)
    }

    /// The key of the open inner whose place is taken by what is opened at this place; None where there
    /// is none. The inners of a FlatMap stay beside each other, however many they are.
    #[inline(always)]
    fn replaced(&self, place: Place, above: Option<Key>) -> Option<Key>
        requires between { IsBetween R.Resource self.now }
        requires named { named_by place ≡ option_map (λ key. key.number) above }
        requires there { IfSome above (λ key. IsSome (find self.now.tree.nodes key)) }
        ensures some { IfSome result (IsReplaced self.now.register.history self.now.tree.nodes place) }
        ensures none { IfNone result (ReplacesNone self.now.register.history place) }
    {
        let Place::Inner(_) = place else {
            return None;
        };
        let merging = above?;
        if self.tree.at(merging.slot).is_switch() {
            return self.inner_of(merging);
        }
        None
    }

    // Moves out a node and all below it: apart, so that what opens a node stays small.
    #[inline(never)]
    fn cut_apart(&mut self, node: Key)
        requires between { IsBetween R.Resource self.old }
        requires open { IsSome (find self.old.tree.nodes node) }
        ensures { IsCut self.old self.new node.number None }
    {
        self.cut(node, None);
    }

    /// Moves out what makes way for a node that is opened at this place: the open inner of a Switch, and
    /// all below it. Whether there was one.
    #[inline(always)]
    fn exchange(&mut self, place: Place, above: Option<Key>) -> bool
        requires between { IsBetween R.Resource self.old }
        requires named { named_by place ≡ option_map (λ key. key.number) above }
        requires there { IfSome above (λ key. IsSome (find self.old.tree.nodes key)) }
        ensures { IsLeft place result self.old self.new }
    {
        let Some(inner) = self.replaced(place, above) else {
            return false;
        };
        self.cut_apart(inner);
        true
    }

    /// Opens a node, for which there is room. An inner of a Switch takes the place of the open one: in the
    /// same step that one is closed, and all below it (Switch: it unsubscribes from the previous inner). A
    /// subscriber of a hub comes last among those of its hub (Publish), which stands at this index.
    #[inline(always)]
    pub fn write_open(&mut self, place: Place, kind: Kind, above: Option<Key>, index: usize) -> Key
        requires between { IsBetween R.Resource self.old }
        requires ready { IsReady self.old.register (Event.Open place kind) }
        requires placed { IsPlaced self.old.tree.nodes (length self.old.register.history) (Event.Open place kind) above }
        requires room { 0 < self.old.tree.nodes.room }
        requires space { 0 < list_room self.old }
        requires slots { 0 < length self.old.hubs.hubs →
            self.old.tree.nodes.count + self.old.tree.nodes.room ≤ self.old.hubs.slots }
        requires found { IsFoundAt self.old.hubs.hubs kind index }
        ensures wrote { Wrote R.Resource self.old (Event.Open place kind ∷ []) self.new }
        ensures frame { OpensNode self.old self.new (Event.Open place kind) result }
        ensures left { TakesOneNode self.old self.new }
    {
        self.register.promise();
        self.tree.promise();
        let number = self.register.len();
        let made = Event::Open { place, kind };
        let replaces = self.exchange(place, above);
        let Ok(key) = self.tree.open(number, made, above) else {
            unreachable!()
        };
        self.tree.promise();
        let _slots = self.tree.slots();
        join(&mut self.hubs, index, place, kind, key);
        mark_opened(&mut self.tree, replaces, place, above);
        self.register.write(made);
        key
    }
}
