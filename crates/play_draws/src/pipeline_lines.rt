// Pipelines and the stencil reference, by their lines.
use flat::line::{Line, Wrong};
use flat::pipeline::{take_compute_pipeline, take_render_pipeline};
use pipeline_calls::compute::plan_set_compute_pipeline;
use pipeline_calls::piped::piped_answer;
use pipeline_calls::programmed::programmed_answer;
use pipeline_calls::reference::plan_set_stencil_reference;
use pipeline_calls::render::plan_set_render_pipeline;
use pipeline_calls::sides::sides_answer;
use played::print::Printer;
use records::pipeline::PrivateCapabilities;
use records::state::{Answer, State};
use std::io::Write;

pub(crate) fn play_set_render_pipeline<W: Write>(
    out: &mut Printer<W>,
    room: usize,
    line: &mut Line,
    caps: PrivateCapabilities,
    s: State,
) -> Result<Answer, Wrong> {
    let pipeline = take_render_pipeline(line)?;
    line.end()?;
    let plan = plan_set_render_pipeline(room, caps, s, pipeline);
    out.put_batch(&plan.batch);
    Ok(piped_answer(plan, s))
}

pub(crate) fn play_set_compute_pipeline<W: Write>(
    out: &mut Printer<W>,
    room: usize,
    line: &mut Line,
    caps: PrivateCapabilities,
    s: State,
) -> Result<Answer, Wrong> {
    let pipeline = take_compute_pipeline(line)?;
    line.end()?;
    let plan = plan_set_compute_pipeline(room, caps, s, pipeline);
    out.put_batch(&plan.batch);
    Ok(programmed_answer(plan, s))
}

pub(crate) fn play_set_stencil_reference<W: Write>(
    out: &mut Printer<W>,
    room: usize,
    line: &mut Line,
    caps: PrivateCapabilities,
    s: State,
) -> Result<Answer, Wrong> {
    let reference = line.take_u32()?;
    line.end()?;
    let plan = plan_set_stencil_reference(room, caps, s, reference);
    out.put_batch(&plan.batch);
    Ok(sides_answer(plan, s))
}
