//! The book of subscriptions: which nodes are open, which resources they hold, and what happened.
//!
//! A program that drives observables asks the book to open nodes, to hold resources at them, to pass
//! on what a source emits and how it ends, and to unsubscribe. The book writes down each accepted call
//! as events of one history, does what the Observable Contract and the operators then require, and
//! hands each resource back for its release once the node that holds it is closed.
//!
//! # Vocabulary
//!
//! - A **node** is one subscription; its **place** is at the root, where an observer outside subscribes,
//!   or below another node. A `Leaf` is a source that the caller drives; a `Pass` mirrors its source.
//!   With a resource it is the node of Using. An `Until` mirrors its source until its notifier emits an
//!   item or ends (TakeUntil, at reactivex.io). A `Flat` has its source's items projected to **inner**
//!   observables, which it mirrors all (FlatMap); a `Switch` mirrors the latest of them, and unsubscribes
//!   from the previous one (Switch). Nodes and resources are numbered by the place of their event in the
//!   history, and named by a [`Key`] and a [`ResKey`].
//! - A **hub** is a published observable, which its **subscribers** share (Publish, at reactivex.io): nodes of
//!   kind `Sub`, told by rising number what comes to its **connection**, a node that stands at no place and
//!   has its source opened below it. With [`Mode::Auto`] the first subscriber connects it and the last one
//!   that goes disconnects it (RefCount), with [`Mode::Manual`] a caller does both (Connect). How a
//!   connection ends its subscribers end too. A hub is named by its number, and stays.
//! - A projected item is **owed** until a caller opens its inner or declines it. What is owed holds
//!   completion back: a FlatMap completes once its source and all inners have completed and nothing is
//!   owed, a Switch once its source and its latest inner have. That inners are opened by hand, and what
//!   is owed counts, is this project's own.
//! - A **resource** is **held** as long as its node is open and it was not removed, or a **lease** of it is
//!   out, **waits** from then on, and is **taken** by [`Book::take`], which gives it as an `rx_resource::Handed` that can only
//!   be released. A lease is given out by [`Book::lease`] and named by a [`LeaseKey`].
//! - A **note** tells the observer at a root of an item or of the end. [`Book::take_mail`] hands the
//!   notes out as [`Mail`].
//! - A contract sees a [`Book`] as a `State` of `specs/`: the history and its limit, the keys of what
//!   is open and held and of the leases out, the resources held and waiting, each by number, tag and
//!   uses, and the number of notes handed out. `Request` says what is asked, `stands` which causes
//!   stand against it, `Accepts` what an accepted call does, `Answers` what a call answers, and
//!   `IsPromised` what holds of every book.
//! - A call that brings no resource is a value too, a [`Call`], which [`Book::ask`] makes and answers.
//! - What a program that embeds a book needs beside is offered here too: [`Kind`], [`Terminal`],
//!   [`Refusal`], [`Event`] and [`Mail`] of `rx_event`, [`Note`] of `rx_note`, and [`Resource`],
//!   [`Life`], [`Handed`] and [`Released`] of `rx_resource`.
//!
//! # Promised, and not
//!
//! - At each moment the resources held are exactly those that the history leaves open, and those
//!   waiting exactly the ones closed and not yet taken, each in one place; the history is lawful, and
//!   no operator's rule is left undone; a RefCount hub is connected exactly while it has a subscriber,
//!   and no hub by two connections (`IsPromised`, which [`Book::promise`] states).
//! - An accepted call adds its own events, and then only what these force. A refused call changes
//!   nothing, and gives a resource that was handed in back as it came. The refusals of each call, and
//!   their order, are exact; that `NoMemory` is given only where memory was really refused, or a
//!   store has 536,870,912 entries, is tested and not proved, as no contract can say what memory is left.
//! - `remove`, `give_back`, `end`, `abort`, `decline`, `fail`, `dispose`, `disconnect`, `take` and
//!   `take_mail` are refused for no want of memory or room, and `close` and `finish` cannot fail: each
//!   opening call, and each item that is projected, keeps room for all that closing needs. That they take
//!   no memory, and `Book::new` none, is tested and not proved, as no contract of a book tells its room;
//!   of the ground below it, which does all of that, it is proved (`TakesNoMemory` of `rx_ground`).
//! - A key is its node's as long as that is open, and nobody's afterwards, also where it was made up or
//!   its slot has another node now.
//! - No call searches the history. What opening, holding, emitting and using cost does not grow with
//!   what is closed or with the length of the history; an item goes up from its leaf to the root, to a
//!   notifier's place or to the source of a FlatMap or a Switch, and on from each subscriber of a hub whose
//!   connection it reaches. A call that closes costs what it closes. No contract speaks of time.
//! - Which of several waiting resources is taken is left open, and so is the word that a resource answers.
//! - [`Book::checkpoint`] puts what the history leaves in place of its events, and changes nothing of what
//!   may happen next: both agree (`Checkpoints`, in `specs/`). What is lost are the stored events before it.
//! - A book that is dropped drops its resources unreleased.
#![tactic(auto)]

mod admit;
mod answer;
mod book;
mod call;
mod checkpoint;
mod closing;
mod ending;
mod holding;
mod hubs;
mod leasing;
mod opening;
mod opening_holding;
mod place;

pub use answer::{Answer, At, Opened, OpenedHolding, OpenedUsing, Refused};
pub use book::Book;
pub use call::Call;
pub use closing::Closed;
pub use ending::{Emitted, ItemWithin};
pub use rx_event::{Event, Kind, Mail, Mode, Refusal, Terminal};
pub use rx_ground::LeaseKey;
pub use rx_note::Note;
pub use rx_resource::{Handed, Life, Released, Resource};
pub use rx_tree::{Key, ResKey};
