//! The other lines.

ghost use Rattle.std.specs.Prelude.{◌≡◌, ◌++◌, OnOk, IfOk, Some};
ghost use Rattle.std.specs.List.{flat_map};
ghost use Rattle.hk_status.specs.Lines.{clocks_text, group_line, up_text, manager_line, shards_text, counts_text, told_text, node_line, wait_line, waiting_line, lost_line, status_text};

use crate::status::{GroupStatus, ManagerLine, NodeLine, NodeTold, WaitLine};
use crate::views::put_views;
use crate::words::{put_address, put_field, put_founding, put_known_field, put_shown, put_stage};
use hk_base::Memory;
use hk_fields::put;
use hk_inside::{Counts, ShardsTold, Text};
use std::alloc::Global;

fn put_clocks(out: &mut Vec<u8>, lease: u32, skew: u32) -> Result<(), Memory>
    ensures { OnOk result (out.new.items ≡ out.old.items ++ clocks_text lease skew) }
{
    put_field(out, b" lease=", u64::from(lease))?;
    put_field(out, b" skew=", u64::from(skew))?;
    put(out, b"\n")
}

fn put_group(out: &mut Vec<u8>, status: &GroupStatus) -> Result<(), Memory>
    ensures { OnOk result (out.new.items ≡ out.old.items ++ group_line status.now) }
{
    put(out, b"group ")?;
    put(out, status.group.as_slice())?;
    put_founding(out, status.founding)?;
    put_stage(out, status.stage)?;
    put_clocks(out, status.lease, status.skew)
}

fn up_text(is_up: bool) -> &'static [u8]
    ensures { result.now ≡ up_text is_up }
{
    if is_up { b" up=" } else { b" down=" }
}

fn put_manager(out: &mut Vec<u8>, manager: &ManagerLine) -> Result<(), Memory>
    ensures { OnOk result (out.new.items ≡ out.old.items ++ manager_line manager.now) }
{
    put_field(out, b"manager ", u64::from(manager.place))?;
    put(out, b" ")?;
    put_address(out, manager.inside.as_slice())?;
    put_known_field(out, up_text(manager.is_up), manager.age)?;
    put_known_field(out, b" records=", manager.records)?;
    put(out, b"\n")
}

fn put_managers(out: &mut Vec<u8>, managers: &[ManagerLine]) -> Result<(), Memory>
    ensures { OnOk result (out.new.items ≡ out.old.items ++ flat_map manager_line managers.now) }
{
    for manager in managers {
        put_manager(out, manager)?;
    }
    Ok(())
}

fn put_shards(out: &mut Vec<u8>, shards: &ShardsTold) -> Result<(), Memory>
    ensures { OnOk result (out.new.items ≡ out.old.items ++ shards_text shards.now) }
{
    put_field(out, b" shards=", u64::from(shards.ready))?;
    put_field(out, b" epoch=", shards.least_epoch)?;
    put_field(out, b" lease=", u64::from(shards.least_lease_left))
}

fn put_counts(out: &mut Vec<u8>, counts: &Counts) -> Result<(), Memory>
    ensures { OnOk result (out.new.items ≡ out.old.items ++ counts_text counts.now) }
{
    put_field(out, b" keys=", counts.keys)?;
    put_field(out, b" bytes=", counts.bytes)?;
    put_field(out, b" gets=", counts.gets)?;
    put_field(out, b" sets=", counts.sets)?;
    put_field(out, b" busy=", counts.busy)?;
    put_field(out, b" aborted=", counts.aborted)?;
    put_field(out, b" unknown=", counts.unknown)
}

fn place_number(place: Option<u8>) -> Option<u64>
    ensures { result ≡ place }
{
    match place {
        Some(place) => Some(u64::from(place)),
        None => None,
    }
}

fn put_all_told(out: &mut Vec<u8>, told: &NodeTold) -> Result<(), Memory>
    ensures { OnOk result (out.new.items ≡ out.old.items ++ told_text (Some told.now)) }
{
    put_known_field(out, b" manager=", place_number(told.manager))?;
    put(out, b" clients=")?;
    put_address(out, told.clients.as_slice())?;
    put_shards(out, &told.shards)?;
    put_counts(out, &told.counts)
}

fn put_told(out: &mut Vec<u8>, told: &Option<NodeTold>) -> Result<(), Memory>
    ensures { OnOk result (out.new.items ≡ out.old.items ++ told_text told.now) }
{
    match told {
        Some(told) => put_all_told(out, told),
        None => {
            put(out, b" manager=- clients=- shards=- epoch=- lease=-")?;
            put(
                out,
                b" keys=- bytes=- gets=- sets=- busy=- aborted=- unknown=-",
            )
        }
    }
}

fn put_node(out: &mut Vec<u8>, line: &NodeLine) -> Result<(), Memory>
    ensures { OnOk result (out.new.items ≡ out.old.items ++ node_line line.now) }
{
    put_field(out, b"node ", u64::from(line.node.0))?;
    put(out, b" ")?;
    put_address(out, line.inside.as_slice())?;
    put(out, b" ")?;
    put_shown(out, line.state)?;
    put_told(out, &line.told)?;
    put(out, b"\n")
}

fn put_nodes(out: &mut Vec<u8>, nodes: &[NodeLine]) -> Result<(), Memory>
    ensures { OnOk result (out.new.items ≡ out.old.items ++ flat_map node_line nodes.now) }
{
    for node in nodes {
        put_node(out, node)?;
    }
    Ok(())
}

fn put_wait(out: &mut Vec<u8>, line: &WaitLine) -> Result<(), Memory>
    ensures { OnOk result (out.new.items ≡ out.old.items ++ wait_line line.now) }
{
    put_field(out, b"waits ", u64::from(line.node.0))?;
    put_field(out, b" for=", u64::from(line.other.0))?;
    put_field(out, b" ms=", u64::from(line.time))?;
    put(out, b"\n")
}

fn put_waits(out: &mut Vec<u8>, lines: &[WaitLine]) -> Result<(), Memory>
    ensures { OnOk result (out.new.items ≡ out.old.items ++ flat_map wait_line lines.now) }
{
    for line in lines {
        put_wait(out, line)?;
    }
    Ok(())
}

fn put_waiting(out: &mut Vec<u8>, address: &[u8]) -> Result<(), Memory>
    ensures { OnOk result (out.new.items ≡ out.old.items ++ waiting_line address.now) }
{
    put(out, b"waiting ")?;
    put_address(out, address)?;
    put(out, b"\n")
}

fn put_newcomers(out: &mut Vec<u8>, addresses: &[Text]) -> Result<(), Memory>
    ensures { OnOk result (out.new.items ≡ out.old.items ++ flat_map waiting_line addresses.now) }
{
    for address in addresses {
        put_waiting(out, address.as_slice())?;
    }
    Ok(())
}

fn put_lost(out: &mut Vec<u8>, is_lost: bool) -> Result<(), Memory>
    ensures { OnOk result (out.new.items ≡ out.old.items ++ lost_line is_lost) }
{
    if is_lost { put(out, b"lost\n") } else { Ok(()) }
}

fn put_status(out: &mut Vec<u8>, status: &GroupStatus) -> Result<(), Memory>
    ensures { OnOk result (out.new.items ≡ out.old.items ++ status_text status.now) }
{
    put_group(out, status)?;
    put_managers(out, status.managers.as_slice())?;
    put_views(out, status.views.as_slice())?;
    put_nodes(out, status.nodes.as_slice())?;
    put_waits(out, status.waits.as_slice())?;
    put_newcomers(out, status.waiting.as_slice())?;
    put_lost(out, status.is_lost)
}

/// The lines that tell how the group stands.
pub fn print_status(alloc: Global, status: &GroupStatus) -> Result<Vec<u8>, Memory>
    ensures { IfOk result (λ text. text.items ≡ status_text status.now) }
{
    let mut out = Vec::new(alloc);
    put_status(&mut out, status)?;
    Ok(out)
}
