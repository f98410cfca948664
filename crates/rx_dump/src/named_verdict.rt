//! The text of a verdict that tells names.

ghost use Rattle.std.specs.Prelude.{◌≡◌, ◌++◌, flat_map, string_bytes, OnOk, IfOk};
ghost use Rattle.serde_json.specs.View.{view};
ghost use Rattle.rx_dump.specs.Names.{name_in_object};
ghost use Rattle.rx_dump.specs.NamedVerdict.{entry_text, named_line, named_verdict};

use crate::names::{Names, label};
use rx_audit::Verdict;
use std::alloc::AllocError;

// Each number, and its name.
fn push_each(text: &mut String, names: Names<'_>, numbers: &[u64]) -> Result<(), AllocError>
    ensures { OnOk result (string_bytes text.new
        ≡ string_bytes text.old ++ flat_map (entry_text (name_in_object (view names.entry.object.now))) numbers.now) }
{
    for number in numbers {
        let label = label(names, *number)?;
        write!(text, " {label}")?;
    }
    Ok(())
}

// A line: what the numbers are of, and each of them.
#[tactic(auto, unfolding(crate::specs::NamedVerdict::named_line))]
fn push_line(
    text: &mut String,
    names: Names<'_>,
    word: &str,
    numbers: &[u64],
) -> Result<(), AllocError>
    ensures { OnOk result (string_bytes text.new
        ≡ string_bytes text.old ++ named_line (name_in_object (view names.entry.object.now)) word.now numbers.now) }
{
    write!(text, "{word}:")?;
    push_each(text, names, numbers)?;
    text.push_str("\n")
}

/// The text of a verdict, in which the name of each number stands behind it.
#[tactic(auto, unfolding(crate::specs::NamedVerdict::named_verdict))]
pub fn named_verdict_text(names: Names<'_>, verdict: &Verdict) -> Result<String, AllocError>
    ensures { IfOk result (λ s. string_bytes s ≡ named_verdict (name_in_object (view names.entry.object.now)) verdict.now) }
{
    let mut text = String::new(names.alloc);
    match verdict {
        Verdict::Lawful {
            live,
            held,
            waiting,
        } => {
            text.push_str("lawful\n")?;
            push_line(&mut text, names, "live", live.as_slice())?;
            push_line(&mut text, names, "held", held.as_slice())?;
            push_line(&mut text, names, "waiting", waiting.as_slice())?;
        }
        Verdict::Unlawful { place } => writeln!(text, "unlawful {place}")?,
        Verdict::Unsettled => text.push_str("unsettled\n")?,
    }
    Ok(text)
}
