//! Commands that close, read from their lines without any memory.

ghost use Rattle.std.specs.Prelude.{◌≡◌, ◌≤◌, length, option_map, IsUtf8, IfSome};
ghost use Rattle.std.specs.List.{prefix_len};
ghost use Rattle.json.specs.Word.{is_space};
ghost use Rattle.rx_scenario.specs.Reading.{is_name_byte};
ghost use Rattle.rx_line.specs.Orders.{plain, task, IsOrderOf};
ghost use Rattle.rx_line.specs.FreeCommands.{past_blanks, behind, past_mark, quoted_word_in, said_of, member_in, is_end, free_command_of, free_of_node, free_named, free_by, free_said, free_in};

use rx_scenario::is_name;

/// A command that closes, removes, gives back or asks for what is late, and its name. None of these takes memory.
#[derive(Clone, Copy, PartialEq, Eq)]
pub enum FreeCommand<'a> {
    Remove(&'a str),
    Return(&'a str),
    End(&'a str),
    Decline(&'a str),
    Dispose(&'a str),
    Disconnect(&'a str),
    Drain,
}

// A member of an object, and the text behind it.
#[derive(Clone, Copy)]
struct Said<'a> {
    key: &'a str,
    value: &'a str,
    rest: &'a [u8],
}

fn is_blank(byte: u8) -> bool
    ensures { result ≡ is_space byte }
{
    byte == b' ' || byte == b'\t' || byte == b'\n' || byte == b'\r'
}

#[tactic(auto, unfolding(rx_scenario::specs::Reading::is_name_byte))]
fn is_of_name(byte: u8) -> bool
    ensures { result ≡ is_name_byte byte }
{
    matches!(byte, b'0'..=b'9' | b'A'..=b'Z' | b'a'..=b'z' | b'-' | b'_')
}

fn blanks_len(text: &[u8]) -> usize
    ensures value { result ≡ prefix_len is_space text.now }
    ensures within { result ≤ length text.now }
{
    text.iter().take_while(|b| is_blank(**b)).count()
}

fn name_len(text: &[u8]) -> usize
    ensures value { result ≡ prefix_len is_name_byte text.now }
    ensures within { result ≤ length text.now }
{
    text.iter().take_while(|b| is_of_name(**b)).count()
}

#[tactic(auto, unfolding(crate::specs::FreeCommands::past_blanks))]
fn past_blanks(text: &[u8]) -> &[u8]
    ensures { result.now ≡ past_blanks text.now }
{
    &text[blanks_len(text)..]
}

// What is behind this byte, where the text begins with it.
fn behind(text: &[u8], mark: u8) -> Option<&[u8]>
    ensures { option_map (λ s. s.now) result ≡ behind mark text.now }
{
    if text.is_empty() || text[0] != mark {
        return None;
    }
    Some(&text[1..])
}

// What is behind this byte, where the text begins with it behind blanks.
#[tactic(auto, unfolding(crate::specs::FreeCommands::past_mark))]
fn past_mark(text: &[u8], mark: u8) -> Option<&[u8]>
    ensures { option_map (λ s. s.now) result ≡ past_mark mark text.now }
{
    behind(past_blanks(text), mark)
}

// A word between quotes, of the bytes that names have, and what is behind it.
#[tactic(auto, unfolding(crate::specs::FreeCommands::quoted_word_in))]
fn quoted_word_in(text: &[u8]) -> Option<(&str, &[u8])>
    ensures { option_map (λ p. (p.0.now, p.1.now)) result ≡ quoted_word_in text.now }
{
    let quoted = past_mark(text, b'"')?;
    let len = name_len(quoted);
    let rest = behind(&quoted[len..], b'"')?;
    match std::str::from_utf8(&quoted[..len]) {
        Ok(word) => Some((word, rest)),
        Err(_) => unreachable!(),
    }
}

// A member whose value is such a word.
#[tactic(auto, unfolding(crate::specs::FreeCommands::member_in))]
fn member_in(text: &[u8]) -> Option<Said<'_>>
    ensures { option_map said_of result ≡ member_in text.now }
{
    let (key, after_key) = quoted_word_in(text)?;
    let after_colon = past_mark(after_key, b':')?;
    let (value, rest) = quoted_word_in(after_colon)?;
    Some(Said { key, value, rest })
}

// Whether an object ends here, and nothing is behind it.
#[tactic(auto, unfolding(crate::specs::FreeCommands::is_end))]
fn is_end(text: &[u8]) -> bool
    ensures { result ≡ is_end text.now }
{
    match past_mark(text, b'}') {
        Some(rest) => past_blanks(rest).is_empty(),
        None => false,
    }
}

// The command of this word that has a node.
#[tactic(auto, unfolding(crate::specs::FreeCommands::free_of_node))]
fn free_of_node<'a>(what: &str, node: &'a str) -> Option<FreeCommand<'a>>
    ensures { option_map free_command_of result ≡ free_of_node what.now node.now }
{
    match what {
        "end" => Some(FreeCommand::End(node)),
        "decline" => Some(FreeCommand::Decline(node)),
        "dispose" => Some(FreeCommand::Dispose(node)),
        _ => None,
    }
}

// The command of this word, with its one member.
#[tactic(auto, unfolding(crate::specs::FreeCommands::free_named))]
fn free_named<'a>(what: &str, key: &str, name: &'a str) -> Option<FreeCommand<'a>>
    ensures { option_map free_command_of result ≡ free_named what.now key.now name.now }
{
    if key == "node" {
        return free_of_node(what, name);
    }
    if key == "hub" && what == "disconnect" {
        return Some(FreeCommand::Disconnect(name));
    }
    if key == "res" && what == "remove" {
        return Some(FreeCommand::Remove(name));
    }
    if key == "lease" && what == "return" {
        return Some(FreeCommand::Return(name));
    }
    None
}

// The command of this word, with its one member, where nothing is behind that.
fn free_by<'a>(what: &str, said: Said<'a>) -> Option<FreeCommand<'a>>
    ensures { option_map free_command_of result ≡ free_by what.now (said_of said.entry) }
{
    if is_end(said.rest) && is_name(said.value) {
        free_named(what, said.key, said.value)
    } else {
        None
    }
}

// The command of this word, with the member that is behind it, if there is one.
#[tactic(auto, unfolding(crate::specs::FreeCommands::free_said))]
fn free_said<'a>(what: &str, text: &'a [u8]) -> Option<FreeCommand<'a>>
    ensures { option_map free_command_of result ≡ free_said what.now text.now }
{
    if is_end(text) {
        return if what == "drain" {
            Some(FreeCommand::Drain)
        } else {
            None
        };
    }
    let said = member_in(past_mark(text, b',')?)?;
    free_by(what, said)
}

// The command that a text is.
#[tactic(auto, unfolding(crate::specs::FreeCommands::free_in))]
fn read(line: &[u8]) -> Option<FreeCommand<'_>>
    ensures { option_map free_command_of result ≡ free_in line.now }
{
    let said = member_in(past_mark(line, b'{')?)?;
    if said.key != "do" {
        return None;
    }
    free_said(said.value, said.rest)
}

/// The command of this kind that a line is, where it is written as the pages write it: `do` first, then its name if it has
/// one, with blanks or none between, and no escapes. It takes no memory.
pub fn free_command_in(line: &[u8]) -> Option<FreeCommand<'_>>
    ensures is { IsUtf8 line.now → option_map free_command_of result ≡ free_in line.now }
    ensures order { IfSome result (λ c. IsOrderOf line.now (task (plain (free_command_of c)))) }
{
    match std::str::from_utf8(line) {
        Ok(_) => read(line),
        Err(_) => None,
    }
}
