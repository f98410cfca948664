//! Letting a call in: nothing stands against it, and there is room for it.

ghost use Rattle.std.specs.Prelude.{◌≡◌, Bool, None, is_some, length, IsTrue, IfSome, IfOk, IfErr, OnOk, OnErr};
ghost use Rattle.rx_event.specs.declared.refusal.Refusal.{Refusal};
ghost use Rattle.rx_event.specs.Refusals.{first_cause};
ghost use Rattle.rx_ground.specs.Ties.{IsRoomier, IsStanding, HasRoomBeside};
ghost use Rattle.rx_book.specs.Answers.{IsRefusalOf};
ghost use Rattle.rx_book.specs.Shown.{state_of};
ghost use Rattle.rx_book.specs.Steps.{IsWithin, Admits};

use rx_event::Refusal;
use rx_ground::{Ground, Wanted};
use rx_resource::Resource;

/// Gets room for what a call costs that takes memory. Where memory is refused some of the room may have been
/// gotten, and nothing else changed.
#[inline(always)]
fn get_room<R: Resource>(ground: &mut Ground<R>, cost: Option<Wanted>) -> Result<(), Refusal>
    requires standing { IsStanding R.Resource ground.old }
    requires within { IfSome cost (IsWithin ground.old) }
    ensures ok { OnOk result (IfSome cost (HasRoomBeside ground.new)) }
    ensures err { IfErr result (λ why. (why ≡ Refusal.NoMemory) × IsTrue (is_some cost)) }
    ensures kept { IsRoomier ground.old ground.new }
    ensures standing { IsStanding R.Resource ground.new }
{
    match cost {
        Some(cost) => ground.make_room(cost),
        None => Ok(()),
    }
}

/// Lets a call in: gets room for it, where nothing stands against it, and begins the list of what it closes.
/// Answers the place of its event. Refused for what stands first, else for want of memory; then some of the room
/// may have been gotten, and nothing else changed.
#[inline(always)]
pub(crate) fn admit<R: Resource>(
    ground: &mut Ground<R>,
    cause: Option<Refusal>,
    cost: Option<Wanted>,
) -> Result<u64, Refusal>
    requires standing { IsStanding R.Resource ground.old }
    requires within { cause ≡ None → IfSome cost (IsWithin ground.old) }
    ensures ok { OnOk result (Admits R.Resource ground.old cause cost ground.new) }
    ensures place { IfOk result (λ place. place ≡ length ground.new.register.history) }
    ensures err { (stand : Refusal → Bool) → first_cause stand ≡ cause →
        IfErr result (IsRefusalOf (is_some cost) stand) }
    ensures same { OnErr result (state_of R.Resource ground.new ≡ state_of R.Resource ground.old) }
    ensures standing { IsStanding R.Resource ground.new }
{
    if let Some(why) = cause {
        return Err(why);
    }
    get_room(ground, cost)?;
    Ok(ground.begin())
}
