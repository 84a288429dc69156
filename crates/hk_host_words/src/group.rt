//! Which group words name.

ghost use Rattle.std.specs.Prelude.{◌≡◌, ◌++◌, codes, IfOk, option_copied};
ghost use Rattle.hk_host_words.specs.Reading.{IsReading, settings_of};
ghost use Rattle.hk_host_words.specs.Words.{AreHostsOf, IsPathOf, IsGroup};

use crate::fault::{HostMistake, WordsFault};
use crate::names::OptionName;
use crate::settings::{Typed, value_of};
use crate::values::{read_group_name, read_path};
use crate::words::{GroupWords, INSIDE_PORT};
use hk_base::{Memory, Sequence};
use hk_hosts::{Hosts, HostsFault, addresses_are_read_as_printed, read_hosts};
use std::alloc::Global;

// The hosts of a group. By the law that is called a text is of one address, so a list that is refused is no other one.
fn read_group_hosts<'a>(alloc: Global, text: Option<&'a str>) -> Result<Hosts, WordsFault<'a>>
    ensures { IsReading (AreHostsOf (option_copied text.entry)) result }
{
    addresses_are_read_as_printed();
    let Some(text) = text else {
        return Err(WordsFault::Mistaken(HostMistake::Missing(OptionName::Hosts)));
    };
    match read_hosts(alloc, text, INSIDE_PORT) {
        Ok(hosts) => Ok(hosts),
        Err(fault) => {
            if fault == HostsFault::Memory {
                return Err(WordsFault::Memory);
            }
            Err(WordsFault::Mistaken(HostMistake::BadHosts(fault, text)))
        }
    }
}

// The usual file of the secret, in a folder.
fn usual_secret(alloc: Global, folder: &[u8]) -> Result<Vec<u8>, Memory>
    ensures { IfOk result (λ name. name.items ≡ folder.now ++ codes "/secret") }
{
    let mut name = Vec::new(alloc);
    name.extend_from_slice(folder)?;
    name.extend_from_slice(b"/secret")?;
    Ok(name)
}

fn read_secret_name<'a>(
    alloc: Global,
    text: Option<&'a str>,
    folder: &[u8],
) -> Result<Sequence<u8>, WordsFault<'a>>
    ensures { IsReading (IsPathOf (folder.now ++ codes "/secret") (option_copied text.entry)) result }
{
    let Ok(usual) = usual_secret(alloc, folder) else {
        return Err(WordsFault::Memory);
    };
    read_path(alloc, OptionName::Secret, text, usual.as_slice())
}

/// The group that options name, where a process keeps what is its own in this folder.
pub(crate) fn read_group<'a>(
    alloc: Global,
    typed: &[Typed<'a>],
    folder: &[u8],
) -> Result<GroupWords, WordsFault<'a>>
    ensures { IsReading (IsGroup folder.now (settings_of typed.now)) result }
{
    let hosts = read_group_hosts(alloc, value_of(typed, OptionName::Hosts))?;
    let secret = read_secret_name(alloc, value_of(typed, OptionName::Secret), folder)?;
    let group = read_group_name(alloc, value_of(typed, OptionName::Group))?;
    Ok(GroupWords {
        hosts,
        secret,
        group,
    })
}
