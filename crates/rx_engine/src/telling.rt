//! What a call of the book told and set free becomes effects.

ghost use Rattle.std.specs.Prelude.{◌≡◌, ◌+◌, ◌≤◌, ◌++◌, [], length};
ghost use Rattle.rx_roles.specs.Effects.{all_told, after_all, items_in};
ghost use Rattle.rx_engine.specs.Settlements.{mail_left, all_given, Releases, KeepsKeys};

use rx_book::{Book, Resource};
use rx_resource::Token;
use rx_roles::{Effects, Roles, What, put_for, tell_one};

/// Tells all notes that are still to be handed out.
#[inline(always)]
pub(crate) fn tell(
    book: &mut Book<Token>,
    hears: &mut Roles,
    merges: &Roles,
    effects: &mut Effects,
    by: u64,
    value: u64,
)
    requires room { items_in (mail_left book.old) + length hears.old.list ≤ effects.old.room }
    ensures book { book.new ≡ all_given book.old }
    ensures hears { hears.new.list ≡ after_all hears.old.list (mail_left book.old) }
    ensures effects { effects.new.list ≡
        effects.old.list ++ all_told by value hears.old.list merges.now.list (mail_left book.old) }
    ensures room { effects.old.room + length hears.new.list ≤
        effects.new.room + (items_in (mail_left book.old) + length hears.old.list) }
{
    book.promise();
    while let Some(mail) = book.take_mail() {
        tell_one(hears, merges, effects, by, value, mail);
    }
}

// Takes all resources that wait, and puts their releases.
#[inline(never)]
fn set_some_free(book: &mut Book<Token>, holds: &mut Roles, effects: &mut Effects, by: u64)
    requires room { length holds.old.list ≤ effects.old.room }
    ensures releases { Releases ⟦<Token as Resource>⟧ by book.old holds.old.list effects.old.list
        book.new holds.new.list effects.new.list }
    ensures none_waits { book.new.waiting ≡ [] }
    ensures keys { KeepsKeys book.old book.new }
    ensures base { book.new.base ≡ book.old.base }
    ensures limit { book.new.limit ≡ book.old.limit }
    ensures room { effects.old.room + length holds.new.list ≤ effects.new.room + length holds.old.list }
{
    book.promise();
    while let Some(handed) = book.take() {
        let number = handed.number();
        let _released = handed.release();
        let role = holds.take(number);
        put_for(effects, by, 0, What::Release, role);
        book.promise();
    }
}

/// Takes each resource that waits, and puts its Release. One look tells where none waits.
#[inline(always)]
pub(crate) fn set_free(book: &mut Book<Token>, holds: &mut Roles, effects: &mut Effects, by: u64)
    requires room { length holds.old.list ≤ effects.old.room }
    ensures releases { Releases ⟦<Token as Resource>⟧ by book.old holds.old.list effects.old.list
        book.new holds.new.list effects.new.list }
    ensures none_waits { book.new.waiting ≡ [] }
    ensures keys { KeepsKeys book.old book.new }
    ensures base { book.new.base ≡ book.old.base }
    ensures limit { book.new.limit ≡ book.old.limit }
    ensures room { effects.old.room + length holds.new.list ≤ effects.new.room + length holds.old.list }
{
    book.promise();
    if book.waiting() == 0 {
        return;
    }
    set_some_free(book, holds, effects, by);
}
