// Transitions of buffers, copies and query results, by their lines.
use calls::batch::Batch;
use flat::line::{Line, Wrong};
use flat::lines::{copies_line, results_line};
use flat::runs::take_barriers;
use played::print::Printer;
use played::{MAX_NUMBERS, MAX_REGIONS};
use records::pipeline::PrivateCapabilities;
use records::state::{Answer, State};
use std::io::Write;
use transfer_calls::barriers::{BarrierCommands, barriers_answer};
use transfer_calls::regions::{CopyCommands, copies_answer};
use transfer_calls::resolved::{copy_queries, resolved_answer};
use transfer_calls::results::plan_copy_query_results;
use transfer_calls::transfers::{plan_copy_buffer_to_buffer, plan_transition_buffers};

pub fn play_copy_query_results<W: Write>(
    out: &mut Printer<W>,
    room: usize,
    queries: &mut [u32],
    line: &mut Line,
    caps: PrivateCapabilities,
    s: State,
) -> Result<Answer, Wrong> {
    let mut numbers = [0u32; MAX_NUMBERS];
    let a = results_line(line, &mut numbers)?;
    let (set, range) = (a.queries.set, a.queries.range);
    let plan = plan_copy_query_results(
        &numbers,
        room,
        queries.len(),
        set.count,
        set.target,
        caps,
        s,
        range.start,
        range.end,
        a.buffer,
        a.offset,
    );
    copy_queries(queries, &numbers, plan);
    // Not put_batch: no plan of one command says that it has no more than one.
    let batch = plan.batch;
    if 0 < batch.n {
        out.put_command(batch.at as u64, batch.command(0));
    }
    Ok(resolved_answer(plan, s))
}

pub(crate) fn play_transition_buffers<W: Write>(
    out: &mut Printer<W>,
    room: usize,
    line: &mut Line,
    caps: PrivateCapabilities,
    s: State,
) -> Result<Answer, Wrong> {
    let mut numbers = [0u32; MAX_NUMBERS];
    let count = take_barriers(line, &mut numbers)?;
    line.end()?;
    let plan = plan_transition_buffers(&numbers, room, count, caps, s);
    out.put_batch(&BarrierCommands {
        run: &numbers,
        batch: &plan.batch,
    });
    Ok(barriers_answer(plan, s))
}

pub(crate) fn play_copy_buffer_to_buffer<W: Write>(
    out: &mut Printer<W>,
    room: usize,
    line: &mut Line,
    caps: PrivateCapabilities,
    s: State,
) -> Result<Answer, Wrong> {
    let mut regions = [0u64; MAX_REGIONS];
    let a = copies_line(line, &mut regions)?;
    let plan = plan_copy_buffer_to_buffer(&regions, room, a.count, caps, s, a.src, a.dst);
    out.put_batch(&CopyCommands {
        run: &regions,
        batch: &plan.batch,
    });
    Ok(copies_answer(plan, s))
}
