//! The parts below a book that stand alone: disposables, virtual time, a history, slots.

use crate::keys::Keys;
use crate::words::{Line, tell};
use rx_disposable::{Back, Counted, Group, Members, Serial, Single, Why};
use rx_event::History;
use rx_slots::{Key, Slots};
use rx_time::{Ticket, Timeline, Trampoline};
use std::alloc::Global;

// The limit of the history.
const EVENTS: u64 = 2;

// What the counted value is.
const COUNTED: u64 = 9;

/// One of each, of numbers.
#[derive(Drop)]
pub struct Parts {
    single: Single<u64>,
    serial: Serial<u64>,
    group: Group<u64>,
    counted: Counted<u64>,
    timeline: Timeline<u64>,
    tickets: Vec<Ticket>,
    trampoline: Trampoline<u64>,
    history: History,
    slots: Slots<u64>,
    keys: Keys,
}

// `single set N`, `single dispose`.
fn play_single(single: &mut Single<u64>, line: &Line<'_>) -> Result<Option<u64>, (Why, u64)> {
    match line.word(1) {
        "set" => match single.set(line.number(2)) {
            Ok(()) => Ok(None),
            Err(Back { why, value }) => Err((why, value)),
        },
        _ => Ok(single.dispose()),
    }
}

// `serial replace N`, `serial dispose`.
fn play_serial(serial: &mut Serial<u64>, line: &Line<'_>) -> Result<Option<u64>, u64> {
    match line.word(1) {
        "replace" => serial.replace(line.number(2)),
        _ => Ok(serial.dispose()),
    }
}

// The ticket of a value that is added; the value comes back where it is refused.
fn add_to(group: &mut Group<u64>, value: u64) -> Result<u64, (Why, u64)> {
    match group.add(value) {
        Ok(ticket) => Ok(ticket),
        Err(Back { why, value }) => Err((why, value)),
    }
}

// The first two that came out, with their tickets.
fn two_of(mut members: Members<u64>) -> [Option<(u64, u64)>; 2] {
    [members.next(), members.next()]
}

// `group add N`, `group remove TICKET`, `group clear`, `group dispose`.
fn play_group(group: &mut Group<u64>, line: &Line<'_>, told: &mut String) {
    match line.word(1) {
        "add" => tell(told, add_to(group, line.number(2))),
        "remove" => tell(told, group.remove(line.number(2))),
        "clear" => tell(told, two_of(group.clear())),
        _ => tell(told, two_of(group.dispose())),
    }
}

// `counted lease`, `counted return`, `counted dispose`.
fn play_counted(counted: &mut Counted<u64>, line: &Line<'_>, told: &mut String) {
    match line.word(1) {
        "lease" => tell(told, counted.lease()),
        "return" => tell(told, counted.give_back()),
        _ => tell(told, counted.dispose()),
    }
}

impl Parts {
    pub fn new(alloc: Global) -> Parts {
        Parts {
            single: Single::new(),
            serial: Serial::new(),
            group: Group::new(alloc),
            counted: Counted::new(COUNTED),
            timeline: Timeline::new(alloc),
            tickets: Vec::new(alloc),
            trampoline: Trampoline::new(alloc),
            history: History::new(alloc, EVENTS),
            slots: Slots::new(alloc),
            keys: Keys::new(alloc),
        }
    }

    // `timeline schedule DUE N`, `timeline cancel` of which in order, `timeline until TIME`, which tells the time it is then.
    fn play_timeline(&mut self, line: &Line<'_>, told: &mut String) {
        let number = line.number(2);
        match line.word(1) {
            "schedule" => {
                if let Ok(ticket) = self.timeline.schedule(number, line.number(3)) {
                    let _ = self.tickets.push(ticket);
                }
            }
            "cancel" => {
                if let Some(ticket) = self.tickets.get(number as usize) {
                    tell(told, self.timeline.cancel(*ticket));
                }
            }
            _ => {
                let next = self.timeline.next_until(number);
                tell(told, (next, self.timeline.now()));
            }
        }
    }

    // `trampoline push N`, `trampoline next`.
    fn play_trampoline(&mut self, line: &Line<'_>, told: &mut String) {
        match line.word(1) {
            "push" => {
                let _ = self.trampoline.push(line.number(2));
            }
            _ => tell(told, self.trampoline.next()),
        }
    }

    // `slots reserve N`, `slots insert NUMBER N`, `slots take NUMBER`, `slots get NUMBER`.
    fn play_slots(&mut self, line: &Line<'_>, told: &mut String) {
        let number = line.number(2);
        let slot = self.keys.slot(number);
        let key = Key { slot, number };
        match line.word(1) {
            "reserve" => tell(told, self.slots.reserve(number as usize).is_ok()),
            "insert" => {
                if let Ok(key) = self.slots.insert(number, line.number(3)) {
                    self.keys.keep(key.number, key.slot);
                }
            }
            "take" => tell(told, self.slots.take(key)),
            _ => tell(told, self.slots.get(key)),
        }
    }

    /// Plays a line at the part that it names; of another one it tells the word.
    pub fn play(&mut self, line: &Line<'_>, told: &mut String) {
        match line.word(0) {
            "single" => tell(told, play_single(&mut self.single, line)),
            "serial" => tell(told, play_serial(&mut self.serial, line)),
            "group" => play_group(&mut self.group, line, told),
            "counted" => play_counted(&mut self.counted, line, told),
            "timeline" => self.play_timeline(line, told),
            "trampoline" => self.play_trampoline(line, told),
            "history" => tell(told, self.history.reserve(line.number(1))),
            "slots" => self.play_slots(line, told),
            other => tell(told, other),
        }
    }
}
