// A bind group's entries gone through once: how many commands, the state after them, which units
// and samplers they name, and which conditions hold. The contracts cite specs/Group.antt.
ghost use Rattle.std.specs.Prelude.{◌<◌, ◌≡◌, length, take};
ghost use Rattle.records.specs.Check.{some?};
ghost use Rattle.bindings.specs.Group.{entries_of, group_commands, group_state, textures_named, samplers_named, entry_out_of_range, offsets_used, entry_wrong_kind, group_over};
ghost use Rattle.bindings.specs.Sweep.{sweep_one};

use crate::entry::{out_of_range, records_one, takes_offset, wrong_kind};
use crate::entry_command::offset_over;
use crate::entry_state::{entry_state, samplers_after, textures_after};
use crate::group::{group_at, offset_at, one_if, reached};
use records::binding::{BindGroup, BindGroupLayoutEntry, GroupEntries, PipelineLayout, RawBinding};
use records::state::BindState;

// What has been found of the entries gone through: how many commands, how many dynamic offsets are
// used, the state, the units and samplers named, and conditions 3, 5 and 6.
#[derive(Clone, Copy)]
pub struct Sweep {
    pub count: u32,
    pub used: u32,
    pub bind: BindState,
    pub textures: u32,
    pub samplers: u32,
    pub range: bool,
    pub kind: bool,
    pub over: bool,
}

// One entry more, where the next dynamic offset is `next`, 0 past the last.
fn sweep_entry(entry: BindGroupLayoutEntry, raw: RawBinding, next: u32, s: Sweep) -> Sweep
    requires { (s.count < 64) × (s.used < 64) }
    ensures { result ≡ sweep_one entry raw next s }
{
    let takes = takes_offset(entry, raw);
    let bind = s.bind;
    Sweep {
        count: s.count + one_if(records_one(raw)),
        used: s.used + one_if(takes),
        bind: entry_state(entry, raw, bind),
        textures: textures_after(entry, raw, s.textures),
        samplers: samplers_after(entry, raw, s.samplers),
        range: s.range | out_of_range(entry, raw),
        kind: s.kind | wrong_kind(entry, raw),
        over: s.over | offset_over(entry, raw, next),
    }
}

// The run with its count, as the call is lent them: the clause is over both.
pub fn sweep_entries(
    offsets: &[u32],
    count: usize,
    l: PipelineLayout,
    i: u32,
    e: GroupEntries,
    g: BindGroup,
    b: BindState,
) -> Sweep
    ensures { (result.count ≡ length (group_commands (entries_of l i e g) (take count offsets.now)))
        × (result.used ≡ offsets_used (entries_of l i e g))
        × (result.bind ≡ group_state (entries_of l i e g) b)
        × (result.textures ≡ textures_named (entries_of l i e g))
        × (result.samplers ≡ samplers_named (entries_of l i e g))
        × (result.range ≡ some? entry_out_of_range (entries_of l i e g))
        × (result.kind ≡ some? entry_wrong_kind (entries_of l i e g))
        × (result.over ≡ group_over (entries_of l i e g) (take count offsets.now)) }
{
    let shape = group_at(l, i);
    let n = reached(shape, g.content_count);
    let mut sweep = Sweep {
        count: 0,
        used: 0,
        bind: b,
        textures: 0,
        samplers: 0,
        range: false,
        kind: false,
        over: false,
    };
    let entries = e.entries;
    let contents = g.contents;
    for j in 0..n {
        let entry = entries[j];
        let content = contents[j];
        let raw = content.binding;
        let next = offset_at(offsets, count, sweep.used);
        sweep = sweep_entry(entry, raw, next, sweep);
    }
    sweep
}
