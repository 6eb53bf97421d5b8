// Passes, by their lines.
ghost use Rattle.std.specs.Prelude.{ℕ, ◌<◌};
ghost use Rattle.pass_calls.specs.Ended.{EndAllowed};

use flat::line::{Line, Wrong};
use flat::pass::{ComputePassArgs, RenderPassArgs, take_compute_pass, take_render_pass};
use pass_calls::begun_compute::{compute_answer, plan_begin_compute};
use pass_calls::begun_render::{plan_begin_render, render_answer};
use pass_calls::ended::{EndPlan, end_answer};
use pass_calls::ends::{plan_end_compute_pass, plan_end_render_pass};
use pass_calls::marked::copy_label;
use played::print::Printer;
use played::{MAX_LABEL, MAX_NUMBERS};
use records::pipeline::PrivateCapabilities;
use records::state::{Answer, State};
use std::io::Write;

// The end of a pass that is planned: its commands are printed, and its answer is handed on.
fn played_ended<W: Write>(out: &mut Printer<W>, plan: EndPlan, s: State) -> Answer
    requires { (i : ℕ) → i < plan.batch.n → EndAllowed plan.batch i }
{
    out.put_batch(&plan.batch);
    end_answer(plan, s)
}

// The beginning of a render pass whose label and queries are read.
// Not one function with `begin_compute`: arguments, plan and answer are of other types.
fn begin_render<W: Write>(
    out: &mut Printer<W>,
    room: usize,
    bytes: &mut [u8],
    label: &[u8],
    set: &[u32],
    a: RenderPassArgs,
    caps: PrivateCapabilities,
    s: State,
) -> Answer {
    let plan = plan_begin_render(
        set,
        room,
        bytes.len(),
        label.len(),
        a.label.is_some(),
        a.label.unwrap_or(0),
        a.set_count,
        caps,
        s,
        a.desc,
    );
    copy_label(bytes, label, plan.put, plan.size);
    out.put_batch(&plan.batch);
    render_answer(plan, s)
}

// The line of a render pass, whose label and queries go into these runs.
#[inline(never)]
fn read_render<W: Write>(
    out: &mut Printer<W>,
    room: usize,
    bytes: &mut [u8],
    line: &mut Line,
    label: &mut [u8],
    set: &mut [u32],
    caps: PrivateCapabilities,
    s: State,
) -> Result<Answer, Wrong> {
    let a = take_render_pass(line, label, set)?;
    line.end()?;
    Ok(begin_render(out, room, bytes, label, set, a, caps, s))
}

// Label and queries stand in a frame of their own: beside the other locals they are filled twice.
#[inline(never)]
pub(crate) fn play_begin_render_pass<W: Write>(
    out: &mut Printer<W>,
    room: usize,
    bytes: &mut [u8],
    line: &mut Line,
    caps: PrivateCapabilities,
    s: State,
) -> Result<Answer, Wrong> {
    let mut label = [0u8; MAX_LABEL];
    let mut set = [0u32; MAX_NUMBERS];
    read_render(out, room, bytes, line, &mut label, &mut set, caps, s)
}

// The beginning of a compute pass whose label and queries are read.
fn begin_compute<W: Write>(
    out: &mut Printer<W>,
    room: usize,
    bytes: &mut [u8],
    label: &[u8],
    set: &[u32],
    a: ComputePassArgs,
    caps: PrivateCapabilities,
    s: State,
) -> Answer {
    let plan = plan_begin_compute(
        set,
        room,
        bytes.len(),
        label.len(),
        a.label.is_some(),
        a.label.unwrap_or(0),
        a.set_count,
        caps,
        s,
        a.timestamp_writes,
    );
    copy_label(bytes, label, plan.put, plan.size);
    out.put_batch(&plan.batch);
    compute_answer(plan, s)
}

pub(crate) fn play_begin_compute_pass<W: Write>(
    out: &mut Printer<W>,
    room: usize,
    bytes: &mut [u8],
    line: &mut Line,
    caps: PrivateCapabilities,
    s: State,
) -> Result<Answer, Wrong> {
    let mut label = [0u8; MAX_LABEL];
    let mut set = [0u32; MAX_NUMBERS];
    let a = take_compute_pass(line, &mut label, &mut set)?;
    line.end()?;
    Ok(begin_compute(out, room, bytes, &label, &set, a, caps, s))
}

pub(crate) fn play_end_render_pass<W: Write>(
    out: &mut Printer<W>,
    room: usize,
    line: &mut Line,
    caps: PrivateCapabilities,
    s: State,
) -> Result<Answer, Wrong> {
    line.end()?;
    let plan = plan_end_render_pass(room, caps, s);
    Ok(played_ended(out, plan, s))
}

pub(crate) fn play_end_compute_pass<W: Write>(
    out: &mut Printer<W>,
    room: usize,
    line: &mut Line,
    caps: PrivateCapabilities,
    s: State,
) -> Result<Answer, Wrong> {
    line.end()?;
    let plan = plan_end_compute_pass(room, caps, s);
    Ok(played_ended(out, plan, s))
}
