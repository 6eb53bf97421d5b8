// Draws, by their lines.
ghost use Rattle.std.specs.Prelude.{ℕ, ◌<◌};
ghost use Rattle.draw_calls.specs.Drawn.{DrawAllowed};

use draw_calls::drawn::{DrawPlan, draw_answer};
use draw_calls::draws::{
    plan_draw, plan_draw_indexed, plan_draw_indexed_indirect, plan_draw_indirect,
};
use flat::line::{Line, Wrong};
use flat::lines::{draw_indexed_line, draw_line, indirect_line};
use played::print::Printer;
use records::pipeline::PrivateCapabilities;
use records::state::{Answer, State};
use std::io::Write;

// A draw that is planned: its commands are printed, and its answer is handed on.
fn played_drawn<W: Write>(out: &mut Printer<W>, plan: DrawPlan, s: State) -> Answer
    requires { (i : ℕ) → i < plan.batch.n → DrawAllowed plan.batch i }
{
    out.put_batch(&plan.batch);
    draw_answer(plan, s)
}

pub(crate) fn play_draw<W: Write>(
    out: &mut Printer<W>,
    room: usize,
    line: &mut Line,
    caps: PrivateCapabilities,
    s: State,
) -> Result<Answer, Wrong> {
    let a = draw_line(line)?;
    let plan = plan_draw(
        room,
        caps,
        s,
        a.first_vertex,
        a.vertex_count,
        a.first_instance,
        a.instance_count,
    );
    Ok(played_drawn(out, plan, s))
}

pub(crate) fn play_draw_indexed<W: Write>(
    out: &mut Printer<W>,
    room: usize,
    line: &mut Line,
    caps: PrivateCapabilities,
    s: State,
) -> Result<Answer, Wrong> {
    let a = draw_indexed_line(line)?;
    let plan = plan_draw_indexed(
        room,
        caps,
        s,
        a.first_index,
        a.index_count,
        a.base_vertex,
        a.first_instance,
        a.instance_count,
    );
    Ok(played_drawn(out, plan, s))
}

pub(crate) fn play_draw_indirect<W: Write>(
    out: &mut Printer<W>,
    room: usize,
    line: &mut Line,
    caps: PrivateCapabilities,
    s: State,
) -> Result<Answer, Wrong> {
    let a = indirect_line(line)?;
    let plan = plan_draw_indirect(room, caps, s, a.buffer.raw, a.offset, a.draw_count);
    Ok(played_drawn(out, plan, s))
}

pub(crate) fn play_draw_indexed_indirect<W: Write>(
    out: &mut Printer<W>,
    room: usize,
    line: &mut Line,
    caps: PrivateCapabilities,
    s: State,
) -> Result<Answer, Wrong> {
    let a = indirect_line(line)?;
    let plan = plan_draw_indexed_indirect(room, caps, s, a.buffer.raw, a.offset, a.draw_count);
    Ok(played_drawn(out, plan, s))
}
