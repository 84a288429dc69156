//! The command that words are.

ghost use Rattle.std.specs.Prelude.{◌≤◌, ℕ, Some, None, MatchOption, option_copied};
ghost use Rattle.hk_host_words.specs.declared.names.CommandName.{CommandName};
ghost use Rattle.hk_host_words.specs.declared.names.CommandName.TheVariants as command;
ghost use Rattle.hk_host_words.specs.Reading.{IsReading, IsSaidBy, settings_of, texts};
ghost use Rattle.hk_host_words.specs.Words.{Names, IsLeaverOf, IsHostCommand};

use crate::fault::{HostMistake, WordsFault};
use crate::group::read_group;
use crate::names::{CommandName, OptionName, read_command_name};
use crate::node::{USUAL_DATA, read_node};
use crate::settings::{Typed, check, read_typed, value_of};
use crate::values::{number_within, read_place};
use crate::words::HostCommand;
use hk_base::NodeId;
use hk_hosts::addresses_are_read_as_printed;
use hk_inside::Leaver;
use std::alloc::Global;

// The greatest number of a node.
const MAX_NODE: u32 = 65_535;

fn read_leaving_node<'a>(text: &'a str) -> Result<Leaver, WordsFault<'a>>
    ensures { (count : ℕ) → IsReading (IsLeaverOf count None (Some text.now)) result }
{
    match number_within(text, 0, MAX_NODE) {
        Some(number) => Ok(Leaver::Node(NodeId(number as u16))),
        None => Err(WordsFault::Mistaken(HostMistake::BadNumber {
            option: OptionName::Node,
            least: 0,
            most: MAX_NODE,
            text,
        })),
    }
}

fn read_leaving_host<'a>(text: &'a str, count: usize) -> Result<Leaver, WordsFault<'a>>
    requires some { 1 ≤ count }
    requires few { count ≤ 9 }
    ensures { IsReading (IsLeaverOf count (Some text.now) None) result }
{
    match read_place(text, count) {
        Ok(place) => Ok(Leaver::Host(place)),
        Err(fault) => Err(fault),
    }
}

// Who is to leave.
fn read_leaver<'a>(
    at: Option<&'a str>,
    node: Option<&'a str>,
    count: usize,
) -> Result<Leaver, WordsFault<'a>>
    requires some { 1 ≤ count }
    requires few { count ≤ 9 }
    ensures { IsReading (IsLeaverOf count (option_copied at.entry) (option_copied node.entry)) result }
{
    match (at, node) {
        (Some(text), None) => read_leaving_host(text, count),
        (None, Some(text)) => read_leaving_node(text),
        _ => Err(WordsFault::Mistaken(HostMistake::NoLeaver)),
    }
}

// Which group, and who is to leave it. By the law that is called there is no other group whose node it could be.
fn read_leave<'a>(alloc: Global, typed: &[Typed<'a>]) -> Result<HostCommand, WordsFault<'a>>
    ensures { IsReading (IsSaidBy command.Leave (settings_of typed.now)) result }
{
    addresses_are_read_as_printed();
    let group = read_group(alloc, typed, USUAL_DATA)?;
    let at = value_of(typed, OptionName::At);
    let node = value_of(typed, OptionName::Node);
    let who = read_leaver(at, node, group.hosts.len())?;
    Ok(HostCommand::Leave { group, who })
}

// What the options of a command say.
fn read_said<'a>(
    alloc: Global,
    name: CommandName,
    typed: &[Typed<'a>],
) -> Result<HostCommand, WordsFault<'a>>
    ensures { IsReading (IsSaidBy name (settings_of typed.now)) result }
{
    match name {
        CommandName::Node => {
            let node = read_node(alloc, typed)?;
            Ok(HostCommand::Node(node))
        }
        CommandName::Init => {
            let group = read_group(alloc, typed, USUAL_DATA)?;
            Ok(HostCommand::Init(group))
        }
        CommandName::Status => {
            let group = read_group(alloc, typed, USUAL_DATA)?;
            Ok(HostCommand::Status(group))
        }
        CommandName::Leave => read_leave(alloc, typed),
    }
}

/// The command that the first word names, whatever stands behind it. Where it names none of these, the words are no
/// command of a group over hosts.
pub fn named_command(words: &[String]) -> Option<CommandName>
    ensures { MatchOption result ((name : CommandName) → Names name (texts words.now) → ⊥) (λ name. Names name (texts words.now)) }
{
    let Some((first, _)) = words.split_first() else {
        return None;
    };
    read_command_name(first.as_str())
}

/// The command that words are; or the first mistake in words that are none of these commands.
pub fn read_host_command<'a>(
    alloc: Global,
    words: &'a [String],
) -> Result<HostCommand, WordsFault<'a>>
    ensures { IsReading (λ said. IsHostCommand said (texts words.now)) result }
{
    let Some((first, options)) = words.split_first() else {
        return Err(WordsFault::Mistaken(HostMistake::NoCommand));
    };
    let Some(name) = read_command_name(first.as_str()) else {
        return Err(WordsFault::Mistaken(HostMistake::NoCommand));
    };
    let typed = read_typed(alloc, options)?;
    let given = typed.as_slice();
    check(name, given)?;
    read_said(alloc, name, given)
}
