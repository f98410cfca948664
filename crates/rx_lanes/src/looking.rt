//! What of all lanes is read for a report, and to find a lane by its place.

ghost use Rattle.std.specs.Prelude.{◌≡◌, ◌+◌, ◌<◌, ◌*◌, length, Some, IsSome};
ghost use Rattle.rx_lanes.specs.Reports.{name_of, waiting, length_of, at_most_all};
ghost use Rattle.rx_lanes.specs.State.{opened_at, Opened};
ghost use Rattle.rx_lanes.specs.Rows.{at_place};
ghost use Rattle.rx_lanes.specs.Chains.{queue_at};
ghost use Rattle.rx_lanes.specs.Lane.{listed, line};

use crate::lanes::Lanes;
use crate::names::LaneName;
use crate::queues::{NONE, Queues};
use crate::table::Table;

impl<E: Copy> Lanes<E> {
    /// The name that finds the lane at a place, now; none where none is there.
    #[inline(always)]
    pub fn name_at(&self, place: usize) -> Option<LaneName>
        ensures { result ≡ name_of place (opened_at self.now place) }
    {
        let row = self.table.row(place)?;
        Some(LaneName {
            place,
            turn: row.turn,
        })
    }

    /// How many effects stand in lanes, or the largest number where they are more. It walks over all of them.
    pub fn waiting(&self) -> u64
        ensures { result ≡ at_most_all (waiting self.now) }
    {
        let mut many: u64 = 0;
        for place in 0..self.table.len() {
            many = self.table.waiting(place, many);
        }
        many
    }
}

// So many, and what was given back.
fn with_returned<E: Copy>(so_far: u64, returned: Option<E>) -> u64
    ensures { result ≡ at_most_all (so_far + length (listed returned)) }
{
    match returned {
        Some(_effect) => so_far.saturating_add(1),
        None => so_far,
    }
}

impl<E: Copy> Table<E> {
    // So many, and how many effects are in the lane at a place, if one is open there.
    fn waiting(&self, place: usize, so_far: u64) -> u64
        ensures { result ≡ at_most_all (so_far + length_of (at_place self.now place)) }
    {
        if self.row(place).is_some() {
            self.waiting_open(place, so_far)
        } else {
            so_far
        }
    }

    fn waiting_open(&self, place: usize, so_far: u64) -> u64
        requires open { IsSome (at_place self.now place) }
        ensures { (o : Opened E) → at_place self.now place ≡ Some o → result ≡ at_most_all (so_far + length (line o.lane)) }
    {
        let many = with_returned(so_far, self.returned[place]);
        let with_front = self.queues.waiting(2 * place, many);
        self.queues.waiting(2 * place + 1, with_front)
    }
}

impl<E: Copy> Queues<E> {
    // So many, and how many effects are in a queue.
    fn waiting(&self, queue: usize, so_far: u64) -> u64
        requires queue { queue < length self.now.queues }
        ensures { result ≡ at_most_all (so_far + length (queue_at self.now queue)) }
    {
        let mut many = so_far;
        let mut cell = self.ends[queue].first;
        while cell != NONE {
            many = many.saturating_add(1);
            cell = self.next[cell as usize];
        }
        many
    }
}
