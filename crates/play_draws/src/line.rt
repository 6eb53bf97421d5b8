// A line of these calls: which one it names.
use crate::binding_lines::play_set_bind_group;
use crate::draw_lines::{
    play_draw, play_draw_indexed, play_draw_indexed_indirect, play_draw_indirect,
};
use crate::pipeline_lines::{
    play_set_compute_pipeline, play_set_render_pipeline, play_set_stencil_reference,
};
use flat::call::Call;
use flat::line::{Line, Wrong};
use played::print::Printer;
use records::pipeline::PrivateCapabilities;
use records::state::{Answer, State};
use std::io::Write;

// Bind groups, pipelines, the stencil reference and draws.
pub fn play_draws<W: Write>(
    out: &mut Printer<W>,
    room: usize,
    line: &mut Line,
    call: Call,
    caps: PrivateCapabilities,
    s: State,
) -> Result<Answer, Wrong> {
    match call {
        Call::SetBindGroup => play_set_bind_group(out, room, line, caps, s),
        Call::SetRenderPipeline => play_set_render_pipeline(out, room, line, caps, s),
        Call::SetComputePipeline => play_set_compute_pipeline(out, room, line, caps, s),
        Call::SetStencilReference => play_set_stencil_reference(out, room, line, caps, s),
        Call::Draw => play_draw(out, room, line, caps, s),
        Call::DrawIndexed => play_draw_indexed(out, room, line, caps, s),
        Call::DrawIndirect => play_draw_indirect(out, room, line, caps, s),
        _ => play_draw_indexed_indirect(out, room, line, caps, s),
    }
}
