// Bind groups and immediates, by their lines.
use binding_calls::grouped::{GroupCommands, group_answer};
use binding_calls::groups::plan_set_bind_group;
use binding_calls::sending::{plan_set_immediates, sent_answer, write_bytes};
use flat::group::take_bind_group;
use flat::line::{Line, Wrong};
use flat::lines::immediates_line;
use played::MAX_NUMBERS;
use played::print::Printer;
use records::pipeline::PrivateCapabilities;
use records::state::{Answer, State};
use std::io::Write;

pub(crate) fn play_set_bind_group<W: Write>(
    out: &mut Printer<W>,
    room: usize,
    line: &mut Line,
    caps: PrivateCapabilities,
    s: State,
) -> Result<Answer, Wrong> {
    let mut numbers = [0u32; MAX_NUMBERS];
    let a = take_bind_group(line, &mut numbers)?;
    line.end()?;
    let plan = plan_set_bind_group(
        &numbers, room, a.count, caps, s, a.layout, a.index, a.entries, a.group,
    );
    out.put_batch(&GroupCommands {
        offsets: &numbers,
        batch: &plan.batch,
    });
    Ok(group_answer(plan, s))
}

pub fn play_set_immediates<W: Write>(
    out: &mut Printer<W>,
    room: usize,
    bytes: &mut [u8],
    line: &mut Line,
    caps: PrivateCapabilities,
    s: State,
) -> Result<Answer, Wrong> {
    let mut numbers = [0u32; MAX_NUMBERS];
    let a = immediates_line(line, &mut numbers)?;
    let plan = plan_set_immediates(&numbers, room, bytes.len(), a.count, caps, s, a.offset);
    write_bytes(bytes, &numbers, plan);
    out.put_batch(&plan.batch);
    Ok(sent_answer(plan, s))
}
