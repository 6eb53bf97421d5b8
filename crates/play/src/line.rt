// A line of the flat form: which call it names, and that call over the list.
use flat::call::{Call, take_call};
use flat::line::{Line, Wrong};
use play_draws::binding_lines::play_set_immediates;
use play_draws::line::play_draws;
use play_passes::line::{play_begin, play_passes};
use play_passes::transfer_lines::play_copy_query_results;
use play_single::line::play_single;
use played::print::Printer;
use records::limits::MAX_COMMANDS;
use records::pipeline::PrivateCapabilities;
use records::state::{Answer, State};
use std::io::Write;

// The call of a line: what it records is printed, where the line is right. Where the line is wrong
// nothing is printed. The line's first number, the answer that is expected, is not looked at.
pub fn play<W: Write>(
    out: &mut Printer<W>,
    room: usize,
    bytes: &mut [u8],
    queries: &mut [u32],
    line: &mut Line,
    caps: PrivateCapabilities,
    s: State,
) -> Result<Answer, Wrong> {
    line.take(7)?;
    let call = take_call(line)?;
    let room = room.min(MAX_COMMANDS);
    // Matched by family and again by call: one match over 31 calls is longer than 40 lines. Room,
    // board and state go through to the plan as they came.
    match call {
        Call::BeginRenderPass | Call::BeginComputePass => play_begin(
            out, room, bytes, line, call, caps, s,
        ),
        Call::EndRenderPass
        | Call::EndComputePass
        | Call::TransitionBuffers
        | Call::CopyBufferToBuffer => play_passes(out, room, line, call, caps, s),
        Call::CopyQueryResults => play_copy_query_results(out, room, queries, line, caps, s),
        Call::SetImmediates => play_set_immediates(out, room, bytes, line, caps, s),
        Call::SetBindGroup
        | Call::SetRenderPipeline
        | Call::SetComputePipeline
        | Call::SetStencilReference
        | Call::Draw
        | Call::DrawIndexed
        | Call::DrawIndirect
        | Call::DrawIndexedIndirect => play_draws(out, room, line, call, caps, s),
        _ => play_single(out, room, line, call, caps, s),
    }
}
