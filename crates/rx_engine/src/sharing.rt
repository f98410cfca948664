//! A share is subscribed to, connected and disconnected.

ghost use Rattle.std.specs.Prelude.{◌≡◌, ◌+◌, ◌≤◌, ◌<◌, Some, IsTrue, option_map, false};
ghost use Rattle.rx_event.specs.declared.event.Event.{Event};
ghost use Rattle.rx_event.specs.declared.event.Kind.{Kind};
ghost use Rattle.rx_event.specs.Events.{is_root};
ghost use Rattle.rx_book.specs.Requests.{place_of};
ghost use Rattle.rx_pool.specs.Ties.{MayJoin};
ghost use Rattle.rx_roles.specs.Roles.{AreBelow};
ghost use Rattle.rx_slots.specs.declared.Key.{Key};
ghost use Rattle.rx_engine.specs.Openings.{Enters};
ghost use Rattle.rx_engine.specs.Rooms.{IsRoomier, HasRoomFor, HasRoomToShare, MayConnect, MayShare};
ghost use Rattle.rx_engine.specs.Sharings.{connection_home, Names, Connects, ConnectsIf, Subscribes, IsSubscribeMade, IsConnectMade, IsDisconnectMade};

use crate::engine::Engine;
use crate::homes::{Home, NO_LIMIT};
use crate::parts::{Parts, User};
use crate::settling::settle;
use rx_book::{At, Key, Kind, Mode, Opened, Refusal, Resource};
use rx_lanes::LaneName;
use rx_pool::Share;
use rx_resource::Token;
use rx_roles::Role;

/// What was subscribed to.
#[derive(Clone, Copy)]
pub struct Subscribed {
    pub key: Key,
    /// The connection that came with it, where the share had none.
    pub connection: Option<Key>,
    /// Where its hub stands in the pool: a hint for the share's next command.
    pub place: usize,
}

/// What was connected.
#[derive(Clone, Copy)]
pub struct Connected {
    pub key: Key,
    /// Where its hub stands in the pool: a hint for the share's next command.
    pub place: usize,
}

impl Parts {
    // A connection that was made gets its home: in a new lane, with its hub's place as the limit of what is below.
    fn house_connection(&mut self, number: u64, place: usize) -> LaneName
        requires homes_room { 0 < self.old.homes.room }
        requires lanes_room { 0 < self.old.lanes.room }
        requires below { AreBelow self.old.homes.list number }
        ensures houses { Enters self.old number false false 0 (connection_home place) result self.new }
        ensures shares { self.new.shares ≡ self.old.shares }
        ensures effects { self.new.effects ≡ self.old.effects }
        ensures spare { self.new.lanes.spare ≡ self.old.lanes.spare }
    {
        let lane = self.lanes.open();
        self.homes.put(Role {
            number,
            word: place as u64,
            lane,
        });
        lane
    }

    // The node of this number names the hub at a place.
    fn name_hub(&mut self, number: u64, place: usize, word: u64)
        requires room { 0 < self.old.shares.room }
        requires below { AreBelow self.old.shares.list number }
        requires may { MayJoin self.old.shares.hubs place word }
        ensures names { Names self.old number place word self.new }
        ensures room { self.old.shares.room ≤ self.new.shares.room + 1 }
    {
        self.shares.join(number, place, word);
    }

    /// A connection that was made gets its home, and names its hub.
    pub(crate) fn enter_connection(&mut self, number: u64, place: usize, word: u64)
        requires { MayConnect self.old number place word }
        ensures connects { Connects self.old number place word self.new }
        ensures effects { self.new.effects ≡ self.old.effects }
        ensures spare { self.new.lanes.spare ≡ self.old.lanes.spare }
    {
        let _lane = self.house_connection(number, place);
        self.name_hub(number, place, word);
    }

    // A connection gets its home, and names its hub, where one was made beside a subscriber.
    fn enter_second(&mut self, connection: Option<Key>, place: usize, word: u64)
        requires { (k : Key) → connection ≡ Some k → MayConnect self.old k.number place word }
        ensures connects { ConnectsIf self.old (option_map (λ k. k.number) connection) place word self.new }
        ensures effects { self.new.effects ≡ self.old.effects }
        ensures spare { self.new.lanes.spare ≡ self.old.lanes.spare }
    {
        if let Some(key) = connection {
            self.enter_connection(key.number, place, word);
        }
    }

    /// A subscriber that was opened, and the connection that came with it, get what is theirs.
    pub(crate) fn enter_subscriber(
        &mut self,
        at: At,
        hub: u64,
        opened: Opened,
        user: u64,
        home: Home,
        place: usize,
        word: u64,
    )
        requires { MayShare self.old opened.key.number (option_map (λ k. k.number) opened.connected) home place word }
        ensures subscribes { Subscribes self.old opened.key.number (is_root (Event.Open (place_of at) (Kind.Sub hub))) user home place word
            (option_map (λ k. k.number) opened.connected) self.new }
        ensures effects { self.new.effects ≡ self.old.effects }
        ensures spare { self.new.lanes.spare ≡ self.old.lanes.spare }
    {
        let number = opened.key.number;
        let _lane = self.enter(at, Kind::Sub(hub), number, user, home);
        self.name_hub(number, place, word);
        self.shares.promise();
        self.enter_second(opened.connected, place, word);
    }

    // Gets room for two nodes more that name a hub.
    fn reserve_to_share(&mut self) -> bool
        ensures same { IsRoomier self.old self.new }
        ensures room { IsTrue result → HasRoomToShare self.new }
    {
        if !self.reserve_node() {
            return false;
        }
        if self.homes.reserve(2).is_err() {
            return false;
        }
        if self.shares.reserve(2).is_err() {
            return false;
        }
        self.lanes.reserve(0, 4).is_ok()
    }

    /// Gets room for a subscriber and its connection, and for their last effects; false where memory was refused.
    pub(crate) fn make_room_to_share(&mut self) -> bool
        ensures same { IsRoomier self.old self.new }
        ensures room { IsTrue result → HasRoomFor 4 self.new }
        ensures share { IsTrue result → HasRoomToShare self.new }
    {
        if !self.reserve(4) {
            return false;
        }
        self.reserve_to_share()
    }
}

impl Engine {
    /// Subscribes to a share: a hub serves it from then on, as long as it has subscribers or is connected, the same
    /// for each subscriber; a share that is connected while it has one (RefCount) is connected with its first.
    /// The hint is the place of the last answer, and changes no answer. Refused, in this order: `Gone`, as by
    /// [`Engine::open`]; `NoHub` where each hub of the mode serves another share; `HubOrder` where the share's own
    /// hub, or each free one, stands behind that of a connection above; `NoMemory`; the book's other causes.
    pub fn subscribe(
        &mut self,
        at: At,
        share: Share,
        hint: usize,
        user: User,
        by: u64,
    ) -> Result<Subscribed, Refusal>
        ensures { IsSubscribeMade ⟦<Token as Resource>⟧ at share user by self.old self.new result }
    {
        self.book.promise();
        self.parts.shares.promise();
        let Some(home) = self.home_of(at, user.lane) else {
            return Err(Refusal::Gone);
        };
        let place = match self.parts.shares.choose(share, hint, home.limit as usize) {
            Ok(place) => place,
            Err(why) => return Err(why),
        };
        let Some(hub) = self.parts.shares.hub_at(place) else {
            return Err(Refusal::NoHub);
        };
        if !self.parts.make_room_to_share() {
            return Err(Refusal::NoMemory);
        }
        if !self.wishes.make_room() {
            return Err(Refusal::NoMemory);
        }
        match self.book.open(at, Kind::Sub(hub.number)) {
            Ok(opened) => {
                self.parts
                    .enter_subscriber(at, hub.number, opened, user.word, home, place, share.word);
                self.wishes.wish(opened.key.number, user);
                settle(&mut self.book, &mut self.parts, &mut self.wishes, by, 0);
                Ok(Subscribed {
                    key: opened.key,
                    connection: opened.connected,
                    place,
                })
            }
            Err(why) => Err(why),
        }
    }

    /// Connects a share by hand (Publish): a hub serves it from then on, as by [`Engine::subscribe`]. The connection
    /// has a new lane. Refused, in this order: `NoHub`; `NoMemory`; the book's other causes.
    pub fn connect(
        &mut self,
        share: Share,
        hint: usize,
        user: User,
        by: u64,
    ) -> Result<Connected, Refusal>
        ensures { IsConnectMade ⟦<Token as Resource>⟧ share user by self.old self.new result }
    {
        self.book.promise();
        self.parts.shares.promise();
        let place = match self.parts.shares.choose(share, hint, NO_LIMIT as usize) {
            Ok(place) => place,
            Err(why) => return Err(why),
        };
        let Some(hub) = self.parts.shares.hub_at(place) else {
            return Err(Refusal::NoHub);
        };
        if !self.parts.make_room_to_share() {
            return Err(Refusal::NoMemory);
        }
        if !self.wishes.make_room() {
            return Err(Refusal::NoMemory);
        }
        match self.book.connect(hub.number) {
            Ok(key) => {
                self.parts.enter_connection(key.number, place, share.word);
                self.wishes.wish(key.number, user);
                settle(&mut self.book, &mut self.parts, &mut self.wishes, by, 0);
                Ok(Connected { key, place })
            }
            Err(why) => Err(why),
        }
    }

    /// Disconnects a share that was connected by hand. The hint is the place of the share's last answer, and changes
    /// no answer. Refused `NotConnected`. It takes no memory.
    pub fn disconnect_share(&mut self, word: u64, hint: usize, by: u64) -> Result<(), Refusal>
        ensures { IsDisconnectMade ⟦<Token as Resource>⟧ word by self.old self.new result }
    {
        let share = Share {
            word,
            mode: Mode::Manual,
            level: 0,
        };
        let Some(place) = self.parts.shares.serving(share, hint) else {
            return Err(Refusal::NotConnected);
        };
        let Some(hub) = self.parts.shares.hub_at(place) else {
            return Err(Refusal::NotConnected);
        };
        self.disconnect(hub.number, by)
    }
}
