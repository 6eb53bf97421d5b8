// The second's commands, moved behind the first's marker bytes and queries. The contracts cite
// specs/Plan.antt.
ghost use Rattle.std.specs.Prelude.{◌≡◌};
ghost use Rattle.joining.specs.Joined.{range_by};
ghost use Rattle.joining.specs.Plan.{shifted_by, moved_in, moved_record};

use crate::plan::JoinPlan;
use records::command::{Command, RangeU32, Record};

// Moved by up to 65,536; 0 where the sum leaves its field, which no accepted list has.
fn shifted(by: usize, n: u32) -> u32
    ensures { result ≡ shifted_by by n }
{
    if by <= 65536 {
        let sum = (n as u64) + (by as u64);
        if sum < 0x1_0000_0000 {
            return sum as u32;
        }
    }
    0
}

fn moved_range(by: usize, r: RangeU32) -> RangeU32
    ensures { result ≡ range_by (shifted_by by) r }
{
    RangeU32 {
        start: shifted(by, r.start),
        end: shifted(by, r.end),
    }
}

fn moved_command(bytes: usize, queries: usize, command: Command) -> Command
    ensures { result ≡ moved_in bytes queries command }
{
    match command {
        Command::CopyQueryResults {
            query_range,
            dst,
            dst_target,
            dst_offset,
        } => {
            let moved = moved_range(queries, query_range);
            Command::CopyQueryResults {
                query_range: moved,
                dst,
                dst_target,
                dst_offset,
            }
        }
        Command::PushDebugGroup(range) => {
            let moved = moved_range(bytes, range);
            Command::PushDebugGroup(moved)
        }
        Command::SetImmediates { uniform, offset } => {
            let moved = shifted(bytes, offset);
            Command::SetImmediates {
                uniform,
                offset: moved,
            }
        }
        _ => command,
    }
}

pub(crate) fn moved_record(plan: JoinPlan, i: usize, x: Record) -> Record
    ensures { result ≡ moved_record plan i x }
{
    Record {
        command: moved_command(plan.from.bytes, plan.from.queries, x.command),
    }
}
