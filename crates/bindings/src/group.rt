// The group that `set_bind_group` names, how many of its entries are reached, and the dynamic offsets
// one by one. The contracts cite specs/Group.antt.
ghost use Rattle.std.specs.Prelude.{◌≤◌, min, cond, ◌||◌, ◌≡◌, ltb, take, drop};
ghost use Rattle.std.specs.List.{list_any};
ghost use Rattle.mask.specs.Mask.{digit_of};
ghost use Rattle.records.specs.Check.{some?};
ghost use Rattle.bindings.specs.Group.{group_at, head_or, long_group};

use records::binding::{BindGroup, GroupShape, PipelineLayout};
use records::check::counted;
use records::limits::{MAX_BIND_GROUPS, MAX_BINDINGS};

// The group that the call names; an absent one past the layout.
pub fn group_at(l: PipelineLayout, i: u32) -> GroupShape
    ensures { result ≡ group_at l i }
{
    let groups = l.groups;
    counted(&groups, l.group_count)
        .get(i as usize)
        .copied()
        .unwrap_or(GroupShape {
            present: false,
            entry_count: 0,
        })
}

// Condition 2.
pub fn group_too_many(l: PipelineLayout, g: BindGroup) -> bool
    ensures { result ≡ ltb 8 l.group_count || (some? long_group (take l.group_count l.groups) || ltb 64 g.content_count) }
{
    (MAX_BIND_GROUPS < l.group_count) | (long_group(l) | (MAX_BINDINGS < g.content_count))
}

fn long_group(l: PipelineLayout) -> bool
    ensures { result ≡ list_any long_group (take l.group_count l.groups) }
{
    let groups = l.groups;
    counted(&groups, l.group_count)
        .iter()
        .any(|shape| shape.present & (MAX_BINDINGS < shape.entry_count))
}

// How many entries are gone through.
pub(crate) fn reached(shape: GroupShape, content_count: usize) -> usize
    ensures { result ≡ min (cond shape.present (min shape.entry_count 64) 0) (min content_count 64) }
{
    if shape.present {
        shape
            .entry_count
            .min(MAX_BINDINGS)
            .min(content_count.min(MAX_BINDINGS))
    } else {
        0
    }
}

// The dynamic offset number `used`, 0 past the last.
pub(crate) fn offset_at(offsets: &[u32], count: usize, used: u32) -> u32
    ensures { result ≡ head_or 0 (drop used (take count offsets.now)) }
{
    counted(offsets, count)
        .get(used as usize)
        .copied()
        .unwrap_or(0)
}

// 1 where it is so, else 0.
pub fn one_if(b: bool) -> u32
    ensures { (result ≡ digit_of b) × (result ≤ 1) }
{
    b as u32
}
