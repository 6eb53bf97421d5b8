// The commands of a bind group by place. The contracts cite specs/Group.antt.
ghost use Rattle.std.specs.Prelude.{false, ◌++◌, ◌≡◌, length, take};
ghost use Rattle.slots.specs.Place.{Stands};
ghost use Rattle.bindings.specs.Units.{sampler_commands};
ghost use Rattle.bindings.specs.Group.{entries_of, group_commands, group_over};

use crate::entry::{records_one, takes_offset};
use crate::entry_command::entry_command;
use crate::group::{group_at, offset_at, one_if, reached};
use crate::units::sampler_command;
use records::binding::{BindGroup, GroupEntries, PipelineLayout};
use records::command::Command;
use records::state::BindState;

// Command number k of the entries.
// The run with its count, as the call is lent them: the clause is over both.
pub(crate) fn group_command_at(
    offsets: &[u32],
    count: usize,
    l: PipelineLayout,
    i: u32,
    e: GroupEntries,
    g: BindGroup,
    k: u32,
) -> Command
    ensures { group_over (entries_of l i e g) (take count offsets.now) ≡ false → Stands result k (group_commands (entries_of l i e g) (take count offsets.now)) }
{
    let shape = group_at(l, i);
    let n = reached(shape, g.content_count);
    let mut left = k;
    let mut used: u32 = 0;
    let entries = e.entries;
    let contents = g.contents;
    for j in 0..n {
        let entry = entries[j];
        let content = contents[j];
        let raw = content.binding;
        let one = one_if(records_one(raw));
        if left < one {
            let next = offset_at(offsets, count, used);
            return entry_command(entry, raw, next);
        }
        left = left - one;
        used = used + one_if(takes_offset(entry, raw));
    }
    Command::PopDebugGroup
}

// Command number k of the call: the n commands of the entries, then one for each of `units`.
pub fn bind_group_command_at(
    offsets: &[u32],
    count: usize,
    l: PipelineLayout,
    i: u32,
    e: GroupEntries,
    g: BindGroup,
    n: u32,
    b: BindState,
    units: u32,
    k: u32,
) -> Command
    ensures { group_over (entries_of l i e g) (take count offsets.now) ≡ false → n ≡ length (group_commands (entries_of l i e g) (take count offsets.now)) → Stands result k (group_commands (entries_of l i e g) (take count offsets.now) ++ sampler_commands b units) }
{
    if k < n {
        group_command_at(offsets, count, l, i, e, g, k)
    } else {
        sampler_command(b, units, k - n)
    }
}
