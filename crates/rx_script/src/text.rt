//! The lines of a report, each written behind a text.

ghost use Rattle.std.specs.Prelude.{◌≡◌, ◌++◌, flat_map, string_bytes, OnOk};
ghost use Rattle.rx_script.specs.Text.{cause_word, refused_line, note_in_line, node_line};
ghost use Rattle.rx_script.specs.Text.{whereabouts_text, leases_text, res_line, totals_line, closed_line};
ghost use Rattle.rx_script.specs.Lines.{refused_lines};
ghost use Rattle.rx_script.specs.Repeated.{in_a_row, one_by_one};

use crate::line::{Account, Totals, Whereabouts};
use crate::repeated::Repeated;
use rx_agenda::{Answer, Cause};
use rx_event::Terminal;
use rx_note::Note;
use rx_scenario::refusal_word;
use std::alloc::AllocError;

/// The name of a cause.
pub fn cause_name(why: Cause) -> &'static str
    ensures { result.now ≡ cause_word why }
{
    match why {
        Cause::NoName => "NoName",
        Cause::NameTaken => "NameTaken",
        Cause::NoStock => "NoStock",
        Cause::NoStep => "NoStep",
        Cause::Book(why) => refusal_word(why),
    }
}

#[tactic(auto, unfolding(crate::specs::Text::refused_line))]
fn push_refused(text: &mut String, executed: usize, answer: Answer) -> Result<(), AllocError>
    ensures { OnOk result (string_bytes text.new ≡ string_bytes text.old ++ refused_line executed answer) }
{
    match answer {
        Answer::Accepted => Ok(()),
        Answer::Refused(why) => {
            let name = cause_name(why);
            writeln!(text, "refused {executed} {name}")
        }
    }
}

/// A line for each refused step, with how many were executed before it and why it was refused.
pub fn push_all_refused(text: &mut String, answers: &[Answer]) -> Result<(), AllocError>
    ensures { OnOk result (string_bytes text.new ≡ string_bytes text.old ++ refused_lines answers.now) }
{
    for (executed, answer) in answers.iter().enumerate() {
        push_refused(text, executed, *answer)?;
    }
    Ok(())
}

#[tactic(auto, unfolding(crate::specs::Text::note_in_line))]
fn push_note(text: &mut String, note: &Note) -> Result<(), AllocError>
    ensures { OnOk result (string_bytes text.new ≡ string_bytes text.old ++ note_in_line note.now) }
{
    match *note {
        Note::Next(value) => write!(text, " next={value}"),
        Note::Project(value) => write!(text, " project={value}"),
        Note::End(Terminal::Completed) => text.push_str(" completed"),
        Note::End(Terminal::Error(code)) => write!(text, " error={code}"),
    }
}

fn push_in_a_row(text: &mut String, repeated: &Repeated) -> Result<(), AllocError>
    ensures { OnOk result (string_bytes text.new ≡ string_bytes text.old ++ flat_map note_in_line (in_a_row repeated.now)) }
{
    for _ in 0..repeated.times {
        push_note(text, &repeated.note)?;
    }
    Ok(())
}

fn push_notes(text: &mut String, notes: &[Repeated]) -> Result<(), AllocError>
    ensures { OnOk result (string_bytes text.new ≡ string_bytes text.old ++ flat_map note_in_line (one_by_one notes.now)) }
{
    for repeated in notes {
        push_in_a_row(text, repeated)?;
    }
    Ok(())
}

/// The line of a node: its name, whether it is open, and the notes that went to it.
#[tactic(auto, unfolding(crate::specs::Text::node_line))]
pub fn push_node(
    text: &mut String,
    name: &str,
    is_open: bool,
    notes: &[Repeated],
) -> Result<(), AllocError>
    ensures { OnOk result (string_bytes text.new ≡ string_bytes text.old ++ node_line name.now is_open (one_by_one notes.now)) }
{
    let openness = if is_open { "open" } else { "closed" };
    write!(text, "node {name} {openness}:")?;
    push_notes(text, notes)?;
    text.push_str("\n")
}

fn whereabouts_text(whereabouts: Whereabouts) -> &'static str
    ensures { result.now ≡ whereabouts_text whereabouts }
{
    match whereabouts {
        Whereabouts::Held => "held",
        Whereabouts::Waiting => "waiting",
        Whereabouts::Taken => "taken",
    }
}

// How many leases of a resource are out, where one is.
fn push_leases(text: &mut String, leases: u64) -> Result<(), AllocError>
    ensures { OnOk result (string_bytes text.new ≡ string_bytes text.old ++ leases_text leases) }
{
    if leases == 0 {
        return Ok(());
    }
    write!(text, " leases={leases}")
}

/// The line of a resource.
#[tactic(auto, unfolding(crate::specs::Text::res_line))]
pub fn push_res(text: &mut String, name: &str, account: Account) -> Result<(), AllocError>
    ensures { OnOk result (string_bytes text.new ≡ string_bytes text.old ++ res_line name.now account) }
{
    let Account {
        tag,
        uses,
        whereabouts,
        leases,
    } = account;
    let whereabouts = whereabouts_text(whereabouts);
    write!(text, "res {name} tag={tag} uses={uses} {whereabouts}")?;
    push_leases(text, leases)?;
    text.push_str("\n")
}

/// The line of the totals.
#[tactic(auto, unfolding(crate::specs::Text::totals_line))]
pub fn push_totals(text: &mut String, totals: Totals) -> Result<(), AllocError>
    ensures { OnOk result (string_bytes text.new ≡ string_bytes text.old ++ totals_line totals) }
{
    let Totals {
        nodes,
        open_nodes,
        accepted,
        held,
        waiting,
        taken,
    } = totals;
    writeln!(
        text,
        "totals nodes={nodes} open={open_nodes} accepted={accepted} held={held} waiting={waiting} taken={taken}"
    )
}

/// The last line: how many resources were released at the end, and how many releases met a fault.
#[tactic(auto, unfolding(crate::specs::Text::closed_line))]
pub fn push_closed(text: &mut String, released: u64, faults: u64) -> Result<(), AllocError>
    ensures { OnOk result (string_bytes text.new ≡ string_bytes text.old ++ closed_line released faults) }
{
    writeln!(text, "closed {released} faults {faults}")
}
