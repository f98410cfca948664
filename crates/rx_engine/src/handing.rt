//! The item of a command is handed out with its answer.

ghost use Rattle.std.specs.Prelude.{◌≡◌, ◌+◌, ◌≤◌, ◌∷◌, [], length};
ghost use Rattle.rx_roles.specs.Effects.{AllListened, items_in};
ghost use Rattle.rx_engine.specs.Rooms.{IsReady};
ghost use Rattle.rx_engine.specs.Settlements.{mail_left, all_given};
ghost use Rattle.rx_engine.specs.Handings.{IsNextHanded};
ghost use Rattle.rx_engine.specs.HandingSteps.{HasTold, TellsAndSpreads, TellsAndHands};

use crate::emitting::emit;
use crate::engine::Engine;
use crate::parts::Parts;
use crate::settling::{settle, spread_some};
use crate::telling::tell;
use rx_book::{Book, Key, Refusal, Resource};
use rx_event::Mail;
use rx_lanes::LaneName;
use rx_resource::Token;
use rx_roles::{Effect, role_of_item, tell_one, what_of_item};

// Tells one note.
#[inline(always)]
fn tell_note(parts: &mut Parts, by: u64, value: u64, mail: Mail)
    requires room { items_in (mail ∷ []) + length parts.old.hears.list ≤ parts.old.effects.room }
    ensures { HasTold by value (mail ∷ []) parts.old parts.new }
{
    tell_one(
        &mut parts.hears,
        &parts.merges,
        &mut parts.effects,
        by,
        value,
        mail,
    );
}

// Tells all notes that are left.
#[inline(always)]
fn tell_rest(book: &mut Book<Token>, parts: &mut Parts, by: u64, value: u64)
    requires room { items_in (mail_left book.old) + length parts.old.hears.list ≤ parts.old.effects.room }
    ensures tells { HasTold by value (mail_left book.old) parts.old parts.new }
    ensures book { book.new ≡ all_given book.old }
{
    tell(
        book,
        &mut parts.hears,
        &parts.merges,
        &mut parts.effects,
        by,
        value,
    );
}

// What one note comes to goes into its lane.
#[inline(always)]
fn spread_note(parts: &mut Parts, by: u64, value: u64, mail: Mail)
    requires ready { IsReady (items_in (mail ∷ [])) parts.old }
    ensures { TellsAndSpreads by value (mail ∷ []) parts.old parts.new }
{
    tell_note(parts, by, value, mail);
    spread_some(parts, by);
}

// One note is all that is told: its item is handed out where its lane is idle. This refuses nothing, and answers as its
// command does, so that no answer is copied into another.
#[inline(always)]
fn hand_one(parts: &mut Parts, by: u64, value: u64, mail: Mail) -> Result<Option<Effect>, Refusal>
    requires ready { IsReady (items_in (mail ∷ [])) parts.old }
    ensures hands { TellsAndHands by value (mail ∷ []) parts.old parts.new result }
    ensures ready { IsReady 0 parts.new }
{
    parts.lanes.promise();
    let Some(role) = role_of_item(&parts.hears, &parts.merges, mail) else {
        spread_note(parts, by, value, mail);
        return Ok(None);
    };
    if !parts.lanes.claim_alone(role.lane, by) {
        spread_note(parts, by, value, mail);
        return Ok(None);
    }
    parts.copies = 1;
    // By its fields: a copy of a lane's name would go over the stack.
    Ok(Some(Effect {
        lane: LaneName {
            place: role.lane.place,
            turn: role.lane.turn,
        },
        user: role.word,
        value,
        by,
        what: what_of_item(mail.note),
    }))
}

// Tells an item that closed nothing, and hands it out where it can.
#[inline(always)]
fn hand_item(
    book: &mut Book<Token>,
    parts: &mut Parts,
    by: u64,
    value: u64,
) -> Result<Option<Effect>, Refusal>
    requires ready { IsReady (items_in (mail_left book.old)) parts.old }
    requires listened { AllListened parts.old.hears.list parts.old.merges.list (mail_left book.old) }
    ensures book { book.new ≡ all_given book.old }
    ensures hands { TellsAndHands by value (mail_left book.old) parts.old parts.new result }
    ensures ready { IsReady 0 parts.new }
{
    book.promise();
    let Some(first) = book.take_mail() else {
        spread_some(parts, by);
        return Ok(None);
    };
    let Some(second) = book.take_mail() else {
        return hand_one(parts, by, value, first);
    };
    tell_note(parts, by, value, first);
    tell_note(parts, by, value, second);
    tell_rest(book, parts, by, value);
    spread_some(parts, by);
    Ok(None)
}

impl Engine {
    /// A leaf emits an item, as by [`Engine::next`]. Where that is all that comes of it, one effect and nothing closed,
    /// and the lane of this effect has nothing in it, and nobody serves it, it is handed out, as by [`Engine::take`]:
    /// the caller serves that lane from now on. Else the lane is due, as by [`Engine::next`].
    pub fn next_handing(
        &mut self,
        leaf: Key,
        by: u64,
        value: u64,
    ) -> Result<Option<Effect>, Refusal>
        ensures { IsNextHanded ⟦<Token as Resource>⟧ leaf by value self.old self.new result }
    {
        self.book.promise();
        match emit(&mut self.book, &mut self.parts, leaf) {
            Ok(()) => {
                self.book.promise();
                let closed = self.book.closed_count();
                if closed > 0 {
                    settle(&mut self.book, &mut self.parts, &mut self.wishes, by, value);
                    self.book.promise();
                    self.parts.lanes.promise();
                    self.parts.shares.promise();
                    return Ok(None);
                }
                self.wishes.close_none();
                self.parts.shares.promise();
                hand_item(&mut self.book, &mut self.parts, by, value)
            }
            Err(why) => Err(why),
        }
    }
}
