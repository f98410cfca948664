//! The text of a verdict.

ghost use Rattle.std.specs.Prelude.{◌≡◌, ◌++◌, flat_map, string_bytes, OnOk, IfOk};
ghost use Rattle.rx_dump.specs.Verdict.{number_text, numbers_line, verdict_text, is_lawful};

use rx_audit::Verdict;
use std::alloc::{AllocError, Global};

fn push_each(text: &mut String, numbers: &[u64]) -> Result<(), AllocError>
    ensures { OnOk result (string_bytes text.new ≡ string_bytes text.old ++ flat_map number_text numbers.now) }
{
    for number in numbers {
        write!(text, " {number}")?;
    }
    Ok(())
}

#[tactic(auto, unfolding(crate::specs::Verdict::numbers_line))]
fn push_numbers(text: &mut String, name: &str, numbers: &[u64]) -> Result<(), AllocError>
    ensures { OnOk result (string_bytes text.new ≡ string_bytes text.old ++ numbers_line name.now numbers.now) }
{
    write!(text, "{name}:")?;
    push_each(text, numbers)?;
    text.push_str("\n")
}

/// The text of a verdict: `lawful` and the lines of what is live, held and waiting, `unlawful` and the
/// place, or `unsettled`.
#[tactic(auto, unfolding(crate::specs::Verdict::verdict_text))]
pub fn verdict_text(alloc: Global, verdict: &Verdict) -> Result<String, AllocError>
    ensures { IfOk result (λ s. string_bytes s ≡ verdict_text verdict.now) }
{
    let mut text = String::new(alloc);
    match verdict {
        Verdict::Lawful {
            live,
            held,
            waiting,
        } => {
            text.push_str("lawful\n")?;
            push_numbers(&mut text, "live", live.as_slice())?;
            push_numbers(&mut text, "held", held.as_slice())?;
            push_numbers(&mut text, "waiting", waiting.as_slice())?;
        }
        Verdict::Unlawful { place } => writeln!(text, "unlawful {place}")?,
        Verdict::Unsettled => text.push_str("unsettled\n")?,
    }
    Ok(text)
}

/// Whether the verdict is that the history is lawful, with nothing left to do.
pub fn is_lawful(verdict: &Verdict) -> bool
    ensures { result ≡ is_lawful verdict.now }
{
    match verdict {
        Verdict::Lawful { .. } => true,
        Verdict::Unlawful { .. } | Verdict::Unsettled => false,
    }
}
