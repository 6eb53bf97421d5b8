// Dispatches, the clearing of a buffer and the transitions of textures, by their lines.
use crate::one::played_one;
use flat::line::{Line, Wrong};
use flat::lines::{clear_line, dispatch_line, place_line};
use flat::runs::take_uses;
use played::MAX_NUMBERS;
use played::print::Printer;
use records::pipeline::PrivateCapabilities;
use records::state::{Answer, State};
use single_calls::barriers::plan_transition_textures;
use single_calls::dispatches::{
    plan_clear_buffer, plan_dispatch_workgroups, plan_dispatch_workgroups_indirect,
};
use std::io::Write;

pub(crate) fn play_dispatch_workgroups<W: Write>(
    out: &mut Printer<W>,
    room: usize,
    line: &mut Line,
    caps: PrivateCapabilities,
    s: State,
) -> Result<Answer, Wrong> {
    let a = dispatch_line(line)?;
    let plan = plan_dispatch_workgroups(room, caps, s, a.x, a.y, a.z);
    Ok(played_one(out, plan, s))
}

pub(crate) fn play_dispatch_workgroups_indirect<W: Write>(
    out: &mut Printer<W>,
    room: usize,
    line: &mut Line,
    caps: PrivateCapabilities,
    s: State,
) -> Result<Answer, Wrong> {
    let a = place_line(line)?;
    let plan = plan_dispatch_workgroups_indirect(room, caps, s, a.buffer.raw, a.offset);
    Ok(played_one(out, plan, s))
}

pub(crate) fn play_clear_buffer<W: Write>(
    out: &mut Printer<W>,
    room: usize,
    line: &mut Line,
    caps: PrivateCapabilities,
    s: State,
) -> Result<Answer, Wrong> {
    let a = clear_line(line)?;
    let plan = plan_clear_buffer(room, caps, s, a.buffer, a.range);
    Ok(played_one(out, plan, s))
}

pub(crate) fn play_transition_textures<W: Write>(
    out: &mut Printer<W>,
    room: usize,
    line: &mut Line,
    caps: PrivateCapabilities,
    s: State,
) -> Result<Answer, Wrong> {
    let mut numbers = [0u32; MAX_NUMBERS];
    let count = take_uses(line, &mut numbers)?;
    line.end()?;
    let plan = plan_transition_textures(&numbers, room, count, caps, s);
    Ok(played_one(out, plan, s))
}
