//! The lines of views.

ghost use Rattle.std.specs.Prelude.{◌≡◌, ◌≤◌, ◌<◌, ◌++◌, ◌+◌, OnOk, take, length, codes, decimal};
ghost use Rattle.std.specs.List.{flat_map, list_any};
ghost use Rattle.hk_status.specs.Views.{same_view, has_at, goes_on, comma, range_part, ranges_from, members_text, view_text, view_line, line_at, views_text};

use crate::words::{put_decimal, put_field};
use hk_base::{Memory, NodeId, View};
use hk_fields::put;

fn is_same(one: &View, other: &View) -> bool
    ensures { result ≡ same_view one.now other.now }
{
    one.epoch == other.epoch
        && one.next == other.next
        && one.members.as_slice() == other.members.as_slice()
}

fn has_at(views: &[View], view: &View, shard: usize) -> bool
    ensures { result ≡ has_at views.now view.now shard }
{
    match views.get(shard) {
        Some(other) => is_same(view, other),
        None => false,
    }
}

// Whether the shard before has the view too.
fn goes_on(views: &[View], view: &View, shard: usize) -> bool
    ensures { result ≡ goes_on views.now view.now shard }
{
    0 < shard && has_at(views, view, shard - 1)
}

// Whether a shard before has the view.
fn has_before(views: &[View], view: &View, shard: usize) -> bool
    requires { shard ≤ length views.now }
    ensures { result ≡ list_any (same_view view.now) (take shard views.now) }
{
    views[..shard].iter().any(|other| is_same(view, other))
}

fn put_comma(out: &mut Vec<u8>, is_needed: bool) -> Result<(), Memory>
    ensures { OnOk result (out.new.items ≡ out.old.items ++ comma is_needed) }
{
    if is_needed { put(out, b",") } else { Ok(()) }
}

fn put_range_part(
    out: &mut Vec<u8>,
    views: &[View],
    view: &View,
    shard: usize,
) -> Result<(), Memory>
    requires { shard < length views.now }
    ensures { OnOk result (out.new.items ≡ out.old.items ++ range_part views.now view.now shard) }
{
    if !has_at(views, view, shard) {
        return Ok(());
    }
    if !goes_on(views, view, shard) {
        put_comma(out, has_before(views, view, shard))?;
        return put_decimal(out, shard as u64);
    }
    if has_at(views, view, shard + 1) {
        return Ok(());
    }
    put_field(out, b"-", shard as u64)
}

fn put_ranges(out: &mut Vec<u8>, views: &[View], view: &View) -> Result<(), Memory>
    ensures { OnOk result (out.new.items ≡ out.old.items ++ ranges_from views.now view.now 0 views.now) }
{
    for shard in 0..views.len() {
        put_range_part(out, views, view, shard)?;
    }
    Ok(())
}

fn put_others(out: &mut Vec<u8>, members: &[NodeId]) -> Result<(), Memory>
    ensures { OnOk result (out.new.items ≡ out.old.items ++ flat_map (λ m. codes "," ++ decimal m.0) members.now) }
{
    for member in members {
        put_field(out, b",", u64::from(member.0))?;
    }
    Ok(())
}

fn put_members(out: &mut Vec<u8>, members: &[NodeId]) -> Result<(), Memory>
    ensures { OnOk result (out.new.items ≡ out.old.items ++ members_text members.now) }
{
    match members {
        [] => put(out, b"-"),
        [first, others @ ..] => {
            put_decimal(out, u64::from(first.0))?;
            put_others(out, others)
        }
    }
}

fn put_view(out: &mut Vec<u8>, view: &View) -> Result<(), Memory>
    ensures { OnOk result (out.new.items ≡ out.old.items ++ view_text view.now) }
{
    put_field(out, b" epoch=", view.epoch)?;
    put(out, b" members=")?;
    put_members(out, view.members.as_slice())?;
    put_field(out, b" next=", u64::from(view.next))?;
    put(out, b"\n")
}

fn put_view_line(out: &mut Vec<u8>, views: &[View], view: &View) -> Result<(), Memory>
    ensures { OnOk result (out.new.items ≡ out.old.items ++ view_line views.now view.now) }
{
    put(out, b"view shards=")?;
    put_ranges(out, views, view)?;
    put_view(out, view)
}

fn put_line_at(out: &mut Vec<u8>, views: &[View], view: &View, shard: usize) -> Result<(), Memory>
    requires { shard ≤ length views.now }
    ensures { OnOk result (out.new.items ≡ out.old.items ++ line_at views.now shard view.now) }
{
    if has_before(views, view, shard) {
        Ok(())
    } else {
        put_view_line(out, views, view)
    }
}

pub fn put_views(out: &mut Vec<u8>, views: &[View]) -> Result<(), Memory>
    ensures { OnOk result (out.new.items ≡ out.old.items ++ views_text views.now) }
{
    for (shard, view) in views.iter().enumerate() {
        put_line_at(out, views, view, shard)?;
    }
    Ok(())
}
