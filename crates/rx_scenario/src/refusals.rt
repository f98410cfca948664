//! The word for each refusal.

ghost use Rattle.std.specs.Prelude.{◌≡◌, ◌≤◌, length};
ghost use Rattle.rx_scenario.specs.RefusalWords.{refusal_word};

use rx_event::Refusal;

/// The word that stands for it in reports, traces and answers.
pub fn refusal_word(why: Refusal) -> &'static str
    ensures word { result.now ≡ refusal_word why }
    ensures short { length result.now ≤ 12 }
{
    match why {
        Refusal::NoMemory => "NoMemory",
        Refusal::Full => "Full",
        Refusal::Gone => "Gone",
        Refusal::WrongKind => "WrongKind",
        Refusal::PlaceTaken => "PlaceTaken",
        Refusal::NothingOwed => "NothingOwed",
        Refusal::NotRoot => "NotRoot",
        Refusal::NoHub => "NoHub",
        Refusal::HubOrder => "HubOrder",
        Refusal::Connected => "Connected",
        Refusal::NotConnected => "NotConnected",
        Refusal::NotFresh => "NotFresh",
        Refusal::NotHeld => "NotHeld",
        Refusal::HasChild => "HasChild",
        Refusal::TooMany => "TooMany",
        Refusal::NoLease => "NoLease",
        Refusal::Leased => "Leased",
        Refusal::MailLeft => "MailLeft",
    }
}
