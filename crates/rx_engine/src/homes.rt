//! The lane that each open node has, which what stands below it has too.

ghost use Rattle.std.specs.Prelude.{◌≡◌, Some, None, IsSome, is_some, IfSome, if◌then◌else◌};
ghost use Rattle.rx_lanes.specs.declared.names.LaneName.{LaneName};
ghost use Rattle.rx_lanes.specs.State.{lane};
ghost use Rattle.rx_book.specs.State.{has_key};
ghost use Rattle.rx_book.specs.declared.answer.At.TheVariants.{Root};
ghost use Rattle.rx_engine.specs.Homes.{lane_in, limit_in, lane_of, is_there, whose, is_housed, home_of};

use crate::engine::Engine;
use rx_book::{At, Key};
use rx_lanes::LaneName;
use rx_pool::MOST;
use rx_roles::Roles;

// Each place in the pool of hubs is below it.
pub(crate) const NO_LIMIT: u64 = MOST as u64;

/// Whose lane.
#[derive(Clone, Copy)]
pub enum LaneOf {
    /// The lane of an open node.
    Node(Key),
    /// The lane of what an open FlatMap or Switch projects.
    Projections(Key),
}

/// What a node gets that is opened.
#[derive(Clone, Copy)]
pub struct Home {
    /// A lane that is open; a new one where it is none.
    pub lane: Option<LaneName>,
    /// Before this place in the pool of hubs a share that stands below it has to stand.
    pub limit: u64,
}

// The lane of the role of this number, where its node is open.
fn lane_if(is_open: bool, roles: &Roles, number: u64) -> Option<LaneName>
    ensures { result ≡ (if is_open then lane_in roles.now.list number else None) }
{
    if !is_open {
        return None;
    }
    match roles.get(number) {
        Some(role) => Some(role.lane),
        None => None,
    }
}

// What a node gets that is opened below the node of this number.
#[inline(always)]
fn home_in(homes: &Roles, number: u64) -> Home
    ensures { result ≡ record { lane = lane_in homes.now.list number; limit = limit_in homes.now.list number } }
{
    match homes.get(number) {
        Some(home) => Home {
            lane: Some(home.lane),
            limit: home.word,
        },
        None => Home {
            lane: None,
            limit: NO_LIMIT,
        },
    }
}

impl Engine {
    // The lane that a key finds.
    fn find_lane(&self, of: LaneOf) -> Option<LaneName>
        ensures { result ≡ lane_of self.now of }
    {
        match of {
            LaneOf::Node(key) => lane_if(self.book.is_open(key), &self.parts.homes, key.number),
            LaneOf::Projections(key) => {
                lane_if(self.book.is_open(key), &self.parts.merges, key.number)
            }
        }
    }

    /// The lane of an open node, or of what an open FlatMap or Switch projects; none where the node is not open,
    /// or projects nothing.
    pub fn lane_of(&self, of: LaneOf) -> Option<LaneName>
        ensures lane { result ≡ lane_of self.now of }
        ensures there { is_some result ≡ is_there self.now.book of }
        ensures found { IfSome result (λ name. IsSome (lane self.now.parts.lanes name)) }
    {
        self.book.promise();
        self.find_lane(of)
    }

    // What a node gets that is opened below this one; none where that is not open.
    #[inline(always)]
    fn home_below(&self, above: Key) -> Option<Home>
        ensures home { result ≡ (if has_key self.now.book.keys above then Some (record {
          lane = lane_in self.now.parts.homes.list above.number;
          limit = limit_in self.now.parts.homes.list above.number;
        }) else None) }
        ensures found { IfSome result
            (λ h. (name : LaneName) → h.lane ≡ Some name → IsSome (lane self.now.parts.lanes name)) }
    {
        if self.book.is_open(above) {
            Some(home_in(&self.parts.homes, above.number))
        } else {
            None
        }
    }

    // What a root gets, with a new lane or that which is asked for.
    #[inline(always)]
    fn root_home(&self, asked: Option<LaneOf>) -> Option<Home>
        ensures home { result ≡
            (if is_housed self.now.book asked then Some (home_of self.now Root asked) else None) }
        ensures found { IfSome result
            (λ h. (name : LaneName) → h.lane ≡ Some name → IsSome (lane self.now.parts.lanes name)) }
    {
        let limit = NO_LIMIT;
        match asked {
            Some(of) => match self.lane_of(of) {
                Some(name) => Some(Home {
                    lane: Some(name),
                    limit,
                }),
                None => None,
            },
            None => Some(Home { lane: None, limit }),
        }
    }

    /// What a node gets that is opened there; none where the node is not there whose lane it would have.
    #[inline(always)]
    pub(crate) fn home_of(&self, at: At, asked: Option<LaneOf>) -> Option<Home>
        ensures home { result ≡
            (if is_housed self.now.book (whose at asked) then Some (home_of self.now at asked) else None) }
        ensures found { IfSome result
            (λ h. (name : LaneName) → h.lane ≡ Some name → IsSome (lane self.now.parts.lanes name)) }
    {
        match at {
            At::Root => self.root_home(asked),
            At::Source(key) => self.home_below(key),
            At::Inner(key) => self.home_below(key),
            At::Notifier(key) => self.home_below(key),
        }
    }
}
