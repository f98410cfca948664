//! Who serves a lane takes its effects, by the lane's word.

ghost use Rattle.std.specs.Prelude.{◌≡◌, length, slice_get};
ghost use Rattle.rx_cellar.specs.Words.{named};
ghost use Rattle.rx_cellar.specs.Serving.{IsTaken, undone_in, sent_of, left_number, given_up_status, IsGivenUp, IsLeftTold, IsRestOf};
ghost use Rattle.rx_cellar.specs.Serving.{Gives, uncounted_where, words_due, node_word};

use crate::cellar::Cellar;
use crate::rest::fill_closings;
use crate::shapes::{Effect, NumberedKey, inner_of, key_of, what_of};
use crate::status::{DONE, NO_SUCH_CODE, status_of};
use crate::words::{is_inside, is_named, place_in, word_of, word_of_due};
use rx_book::Refusal;
use rx_engine::LaneOf;
use rx_lanes::LaneName;
use rx_roles::{Effect as Sent, What};

// No lane.
const NO_LANE: u64 = u64::MAX;

// What comes back: nothing, or one effect of a kind that is one.
fn undone_in(untold: &[Effect]) -> Option<Option<Effect>>
    ensures { result ≡ undone_in untold.now }
{
    if untold.len() == 0 {
        return Some(None);
    }
    if untold.len() > 1 {
        return None;
    }
    let only = untold[0];
    match what_of(only.kind) {
        Some(_what) => Some(Some(only)),
        None => None,
    }
}

// What comes back to this lane.
fn sent_of(name: LaneName, undone: Option<Effect>) -> Option<Sent>
    ensures { result ≡ sent_of name undone }
{
    match undone {
        Some(effect) => inner_of(name, effect),
        None => None,
    }
}

// Whether something is left, as a number.
fn left_number(answer: Option<bool>) -> u64
    ensures { result ≡ left_number answer }
{
    match answer {
        Some(true) => 1,
        Some(false) => 0,
        None => 0,
    }
}

// Whether it was given up.
fn given_up_status(answer: Option<bool>) -> u8
    ensures { result ≡ given_up_status answer }
{
    match answer {
        Some(_left) => DONE,
        None => status_of(Refusal::Gone),
    }
}

// So many releases were told, without what came back, where it was taken back.
fn uncounted_where(answer: Option<bool>, sent: Option<Sent>, released: u64) -> u64
    ensures { result ≡ uncounted_where answer sent released }
{
    if answer.is_none() {
        return released;
    }
    let Some(effect) = sent else {
        return released;
    };
    match effect.what {
        What::Release => released.saturating_sub(1),
        _ => released,
    }
}

impl Cellar {
    // The lane that a word names.
    pub(crate) fn named(&self, word: u64) -> Option<LaneName>
        ensures { result ≡ named self.now.engine.parts.lanes word }
    {
        let name = self.engine.lanes().name_at(place_in(word))?;
        if is_named(word, name) {
            Some(name)
        } else {
            None
        }
    }

    /// Takes the next effect of a lane, for who serves it or may.
    #[inline(always)]
    pub fn take(&mut self, word: u64, by: u64) -> Option<Effect>
        ensures { IsTaken word by self.old self.new result }
    {
        let Some(name) = self.named(word) else {
            return None;
        };
        let given = self.engine.take(name, is_inside(word), by);
        self.give_out(given)
    }

    // Lets others serve this lane.
    fn give(&mut self, name: LaneName, by: u64, sent: Option<Sent>, is_left: &mut u64) -> u8
        ensures { Gives name by sent self.old self.new is_left.new result }
    {
        let answer = self.engine.give_up(name, by, sent);
        self.released = uncounted_where(answer, sent, self.released);
        *is_left = left_number(answer);
        given_up_status(answer)
    }

    /// Lets others serve a lane; what was taken and not told comes first again.
    pub fn give_up(&mut self, word: u64, by: u64, untold: &[Effect], is_left: &mut u64) -> u8
        ensures { IsGivenUp word by untold.now self.old self.new is_left.new result }
    {
        *is_left = 0;
        let Some(undone) = undone_in(untold) else {
            return NO_SUCH_CODE;
        };
        match self.named(word) {
            Some(name) => self.give(name, by, sent_of(name, undone), is_left),
            None => status_of(Refusal::Gone),
        }
    }

    /// A lane from a place on that has something, and that nobody serves: its word, and the place behind it.
    pub fn left(&self, from: u64, lane: &mut u64, next: &mut u64) -> u8
        ensures told { IsLeftTold from self.now lane.new next.new }
        ensures done { result ≡ 0 }
    {
        match self.engine.lanes().left(from as usize) {
            Some(name) => {
                *lane = word_of(name);
                *next = (name.place as u64).saturating_add(1);
            }
            None => {
                *lane = NO_LANE;
                *next = from;
            }
        }
        DONE
    }

    /// The word of the lane of a node; none where the node is not open.
    pub fn node_word(&self, node: NumberedKey) -> Option<u64>
        ensures { result ≡ node_word self.now node }
    {
        match self.engine.lane_of(LaneOf::Node(key_of(node))) {
            Some(name) => Some(word_of(name)),
            None => None,
        }
    }

    /// The word of one of the lanes that the last accepted command's caller is to serve; none past the last.
    #[inline(always)]
    pub fn due_word(&self, index: usize) -> Option<u64>
        ensures { result ≡ slice_get (words_due self.now) index }
    {
        match self.engine.due().get(index) {
            Some(due) => Some(word_of_due(*due)),
            None => None,
        }
    }

    /// How many these are.
    #[inline(always)]
    pub fn due_count(&self) -> usize
        ensures { result ≡ length (words_due self.now) }
    {
        self.engine.due().len()
    }

    /// The closings of the last accepted command, from one on.
    pub fn closings(&self, from: u64, words: &mut [u64], count: &mut u64) -> u8
        ensures { IsRestOf self.now.engine.wishes.closings from words.old words.new count.new result }
    {
        *count = fill_closings(&self.engine, from as usize, words) as u64;
        DONE
    }
}
