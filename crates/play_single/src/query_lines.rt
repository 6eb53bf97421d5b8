// Queries, by their lines.
use crate::one::played_one;
use flat::line::{Line, Wrong};
use flat::lines::{queries_line, query_line};
use played::MAX_NUMBERS;
use played::print::Printer;
use records::pipeline::PrivateCapabilities;
use records::state::{Answer, State};
use single_calls::queries::{
    plan_begin_query, plan_end_query, plan_write_timestamp, reset_queries,
};
use std::io::Write;

// The three calls apart: only the plan's function differs, and a closure over seven arguments is no
// plainer.
pub(crate) fn play_begin_query<W: Write>(
    out: &mut Printer<W>,
    room: usize,
    line: &mut Line,
    caps: PrivateCapabilities,
    s: State,
) -> Result<Answer, Wrong> {
    let mut numbers = [0u32; MAX_NUMBERS];
    let a = query_line(line, &mut numbers)?;
    let plan = plan_begin_query(&numbers, room, a.set.count, a.set.target, caps, s, a.index);
    Ok(played_one(out, plan, s))
}

pub(crate) fn play_end_query<W: Write>(
    out: &mut Printer<W>,
    room: usize,
    line: &mut Line,
    caps: PrivateCapabilities,
    s: State,
) -> Result<Answer, Wrong> {
    let mut numbers = [0u32; MAX_NUMBERS];
    let a = query_line(line, &mut numbers)?;
    let plan = plan_end_query(&numbers, room, a.set.count, a.set.target, caps, s, a.index);
    Ok(played_one(out, plan, s))
}

pub(crate) fn play_write_timestamp<W: Write>(
    out: &mut Printer<W>,
    room: usize,
    line: &mut Line,
    caps: PrivateCapabilities,
    s: State,
) -> Result<Answer, Wrong> {
    let mut numbers = [0u32; MAX_NUMBERS];
    let a = query_line(line, &mut numbers)?;
    let plan = plan_write_timestamp(&numbers, room, a.set.count, a.set.target, caps, s, a.index);
    Ok(played_one(out, plan, s))
}

pub(crate) fn play_reset_queries(
    line: &mut Line,
    caps: PrivateCapabilities,
    s: State,
) -> Result<Answer, Wrong> {
    let mut numbers = [0u32; MAX_NUMBERS];
    let a = queries_line(line, &mut numbers)?;
    let (set, range) = (a.set, a.range);
    Ok(reset_queries(
        &numbers,
        set.count,
        set.target,
        caps,
        s,
        range.start,
        range.end,
    ))
}
