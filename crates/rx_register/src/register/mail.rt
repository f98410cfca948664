//! Notes: queued with their event, and handed out in order.

ghost use Rattle.std.specs.Prelude.{◌≡◌, ◌+◌, ◌-◌, ◌<◌, ◌≤◌, [], ◌∷◌, ◌++◌, is_some, slice_get, OnOk, OnErr, if◌then◌else◌};
ghost use Rattle.std.specs.VecDeque.{deque_len, deque_capacity};
ghost use Rattle.rx_event.specs.Notes.{notes};

use super::Register;
use rx_event::Mail;
use std::alloc::AllocError;
use std::collections::VecDeque;

// Twice the room that there was, no less than is wanted, and 4 at least.
fn grown(room: usize, wanted: usize) -> usize
    ensures { wanted ≤ result }
{
    let twice = room.saturating_mul(2);
    let least = if wanted < 4 { 4 } else { wanted };
    if twice < least { least } else { twice }
}

// Room for so many notes more, where there is less. A queue with none is made anew, so that nothing is copied.
#[cold]
#[inline(never)]
fn grow(mail: &mut VecDeque<Mail>, count: usize) -> Result<(), AllocError>
    requires less { deque_capacity mail.old < deque_len mail.old + count }
    ensures items { mail.new.items ≡ mail.old.items }
    ensures len { deque_len mail.new ≡ deque_len mail.old }
    ensures capacity { deque_capacity mail.old ≤ deque_capacity mail.new }
    ensures ok { OnOk result (deque_len mail.new + count ≤ deque_capacity mail.new) }
{
    if mail.len() > 0 {
        return mail.reserve(count);
    }
    let alloc = *mail.allocator();
    let fresh = VecDeque::with_capacity(alloc, grown(mail.capacity(), count))?;
    *mail = fresh;
    Ok(())
}

impl Register {
    /// Gets room for so many notes in all beyond those that are queued, so that telling as many takes
    /// no memory. Refused only where there was less room and memory was refused. No note changes
    /// either way.
    #[inline(always)]
    pub fn reserve_mail(&mut self, count: usize) -> Result<(), AllocError>
        ensures ok { OnOk result (count ≤ self.new.mail_room) }
        ensures err { OnErr result (self.old.mail_room < count) }
        ensures kept { self.new ≡ record self.old { mail_room = self.new.mail_room } }
        ensures mail_room { self.old.mail_room ≤ self.new.mail_room }
    {
        if count <= self.mail.capacity() - self.mail.len() {
            return Ok(());
        }
        grow(&mut self.mail, count)
    }

    /// Queues a note of the event that is written next. It takes no memory.
    #[inline(always)]
    pub fn tell(&mut self, mail: Mail)
        requires { 0 < self.old.mail_room }
        ensures told { self.new ≡ record self.old { pending = self.old.pending ++ mail ∷ []; mail_room = self.old.mail_room - 1 } }
    {
        self.mail.push_back_reserved(mail);
    }

    /// The next of the notes, which is then handed out; None where all were. It takes no memory.
    #[inline(always)]
    pub fn take_mail(&mut self) -> Option<Mail>
        ensures value { result ≡ slice_get (notes self.old.history) self.old.given }
        ensures kept { self.new ≡ record self.old { given = self.new.given; mail_room = self.new.mail_room } }
        ensures given { self.new.given ≡ (if is_some result then self.old.given + 1 else self.old.given) }
        ensures mail_room { self.new.mail_room ≡ (if is_some result then self.old.mail_room + 1 else self.old.mail_room) }
    {
        if self.told == 0 {
            return None;
        }
        self.told -= 1;
        self.mail.pop_front()
    }
}
