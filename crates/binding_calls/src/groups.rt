// `set_bind_group`: the plan, and the call. The contracts cite specs/Grouped.antt of this crate and
// specs/Step.antt and Did.antt of `calls`.
ghost use Rattle.std.specs.Prelude.{◌≤◌, ◌≡◌, length};
ghost use Rattle.records.specs.declared.state.BindState.{BindState};
ghost use Rattle.bindings.specs.Units.{sampler_commands};
ghost use Rattle.calls.specs.Call.{set_bind_group};
ghost use Rattle.calls.specs.Did.{Lists};
ghost use Rattle.calls.specs.Step.{set_bind_group_meaning};
ghost use Rattle.binding_calls.specs.Grouped.{GroupOf, group_asks};

use crate::grouped::{GroupCommands, GroupPlan, Grouped, group_answer};
use bindings::group::{group_at, group_too_many};
use bindings::sweep::{Sweep, sweep_entries};
use bindings::units::dirty_units;
use calls::batch::record;
use calls::judge::{commands_only, judge, list_rooms, spot_of, taken};
use calls::phase::in_pass;
use pass::marks::over_run;
use records::binding::{BindGroup, GroupEntries, PipelineLayout};
use records::check::broken_limits;
use records::command::Record;
use records::outcome::Conditions;
use records::pipeline::PrivateCapabilities;
use records::state::{Answer, BindState, Phase, State};

// How many samplers the units of a mask take.
fn sampler_count(units: u32) -> usize
    ensures { ((b : BindState) → result ≡ length (sampler_commands b units)) × (result ≤ 32) }
{
    mask::count(units) as usize
}

// The call's conditions, from what was found of the entries and the count of dynamic offsets; `short`
// is a count above its run.
fn group_asks(
    phase: Phase,
    layout: PipelineLayout,
    index: u32,
    group: BindGroup,
    sweep: Sweep,
    count: usize,
    short: bool,
) -> Conditions
    ensures { result ≡ group_asks phase layout index group sweep count short }
{
    let shape = group_at(layout, index);
    Conditions {
        phase: !in_pass(phase),
        many: group_too_many(layout, group),
        range: (layout.group_count <= (index as usize)) | sweep.range,
        absent: (!shape.present) | (count < (sweep.used as usize)),
        kind: sweep.kind,
        sum: sweep.over,
        room: short,
    }
}

// The count beside its run: one above the run is refused (condition 7), which a slice could not
// say.
pub fn plan_set_bind_group(
    offsets: &[u32],
    room: usize,
    count: usize,
    caps: PrivateCapabilities,
    s: State,
    layout: PipelineLayout,
    index: u32,
    entries: GroupEntries,
    group: BindGroup,
) -> GroupPlan
    ensures { GroupOf offsets.now room s (set_bind_group_meaning s layout index entries group (record { run = offsets.now; count = count })) result }
{
    let p = s.progress;
    let phase = p.phase;
    let old = s.bind;
    let sweep = sweep_entries(offsets, count, layout, index, entries, group, old);
    let bind = sweep.bind;
    let units = dirty_units(bind, sweep.textures, sweep.samplers);
    let n = (sweep.count as usize) + sampler_count(units);
    let short = over_run(offsets, count);
    let c = group_asks(phase, layout, index, group, sweep, count, short);
    let rooms = list_rooms(room);
    let more = commands_only(n);
    let broken = broken_limits(s);
    let v = judge(rooms, broken, p, c, phase, more);
    let place = spot_of(v.ok, p.commands, n);
    let progress = v.progress;
    let outcome = v.outcome;
    let after = taken(v.ok, bind, old);
    GroupPlan {
        progress,
        after,
        batch: Grouped {
            at: place.at,
            n: place.n,
            count,
            layout,
            index,
            entries,
            group,
            first: sweep.count,
            bind,
            units,
        },
        outcome,
    }
}

pub fn set_bind_group(
    list: &mut [Record],
    offsets: &[u32],
    count: usize,
    caps: PrivateCapabilities,
    s: State,
    layout: PipelineLayout,
    index: u32,
    entries: GroupEntries,
    group: BindGroup,
) -> Answer
    ensures { Lists caps s (set_bind_group layout index entries group (record { run = offsets.now; count = count })) list.old result list.new }
{
    let plan = plan_set_bind_group(
        offsets,
        list.len(),
        count,
        caps,
        s,
        layout,
        index,
        entries,
        group,
    );
    record(
        list,
        &GroupCommands {
            offsets,
            batch: &plan.batch,
        },
    );
    group_answer(plan, s)
}
