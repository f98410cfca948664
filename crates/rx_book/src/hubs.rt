//! Hubs, the published observables: making, connecting and disconnecting them.

ghost use Rattle.std.specs.Prelude.{◌≡◌};
ghost use Rattle.std.specs.List.{find};
ghost use Rattle.rx_event.specs.Tree.{places};
ghost use Rattle.rx_ground.specs.Told.{is_connected_manual};
ghost use Rattle.rx_book.specs.Requests.{hub_request, connect_request, disconnect_request};
ghost use Rattle.rx_book.specs.Answers.{AnswersKey, AnswersPlace, AnswersPlaceOrWant};

use crate::Book;
use crate::answer::Answer;
use crate::call::Call;
use rx_event::{Mode, Refusal};
use rx_resource::Resource;
use rx_tree::Key;

impl<R: Resource> Book<R> {
    /// Makes a hub, a published observable that its subscribers share (Publish, at reactivex.io): with
    /// `Mode::Auto` it connects while it has subscribers (RefCount), with `Mode::Manual` by
    /// [`Book::connect`]. Answers the hub's number, which is the place of its event. Refused, in this
    /// order: `TooMany` at 1,024 hubs, `Full`, `NoMemory`. A refusal changes nothing.
    pub fn hub(&mut self, mode: Mode) -> Result<u64, Refusal>
        ensures { AnswersPlaceOrWant self.old (hub_request mode) self.new result }
    {
        let Answer::Place(place) = self.answer(Call::Hub(mode))? else {
            unreachable!()
        };
        Ok(place)
    }

    /// Connects a hub by hand (Connect, at reactivex.io): its subscribers are then told what comes from
    /// the source of the connection, which is opened as that of any node. Answers the connection's key,
    /// whose number is the place of the event. Refused, in this order: `NoHub`, `WrongKind` where the hub
    /// connects by itself, `Connected` where it has an open connection, `TooMany` at 1,048,576 open nodes,
    /// `Full`, `NoMemory`. A refusal changes nothing.
    pub fn connect(&mut self, hub: u64) -> Result<Key, Refusal>
        ensures { AnswersKey self.old (connect_request hub) self.new result }
    {
        let Answer::Connected(connection) = self.answer(Call::Connect(hub))? else {
            unreachable!()
        };
        Ok(connection)
    }

    /// Disconnects a hub by hand (the disposable that Connect returns): closes its connection and all
    /// below it, and no other node; its subscribers stay, and are told nothing. Answers the place of the
    /// event. Refused, in this order: `NoHub`, `WrongKind` where the hub connects by itself,
    /// `NotConnected` where it has no open connection. It takes no memory. A refusal changes nothing.
    pub fn disconnect(&mut self, hub: u64) -> Result<u64, Refusal>
        ensures { AnswersPlace self.old (disconnect_request hub) self.new result }
    {
        self.answer_free(Call::Disconnect(hub))
    }

    /// The least number of a hub that was connected by hand and is connected still; None where there is
    /// none.
    pub fn open_manual(&self) -> Option<u64>
        ensures { result ≡ find (is_connected_manual self.now.history) (places self.now.history) }
    {
        self.ground.first_manual()
    }
}
