// A line of these calls: which one it names.
use crate::pass_lines::{
    play_begin_compute_pass, play_begin_render_pass, play_end_compute_pass, play_end_render_pass,
};
use crate::transfer_lines::{play_copy_buffer_to_buffer, play_transition_buffers};
use flat::call::Call;
use flat::line::{Line, Wrong};
use played::print::Printer;
use records::pipeline::PrivateCapabilities;
use records::state::{Answer, State};
use std::io::Write;

// The two calls with a label.
pub fn play_begin<W: Write>(
    out: &mut Printer<W>,
    room: usize,
    bytes: &mut [u8],
    line: &mut Line,
    call: Call,
    caps: PrivateCapabilities,
    s: State,
) -> Result<Answer, Wrong> {
    match call {
        Call::BeginRenderPass => play_begin_render_pass(out, room, bytes, line, caps, s),
        _ => play_begin_compute_pass(out, room, bytes, line, caps, s),
    }
}

// The ends of passes, and the transfers that read no run.
pub fn play_passes<W: Write>(
    out: &mut Printer<W>,
    room: usize,
    line: &mut Line,
    call: Call,
    caps: PrivateCapabilities,
    s: State,
) -> Result<Answer, Wrong> {
    match call {
        Call::EndRenderPass => play_end_render_pass(out, room, line, caps, s),
        Call::EndComputePass => play_end_compute_pass(out, room, line, caps, s),
        Call::TransitionBuffers => play_transition_buffers(out, room, line, caps, s),
        _ => play_copy_buffer_to_buffer(out, room, line, caps, s),
    }
}
