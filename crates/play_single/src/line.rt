// A line of these calls: which one it names.
use crate::dispatch_lines::{
    play_clear_buffer, play_dispatch_workgroups, play_dispatch_workgroups_indirect,
    play_transition_textures,
};
use crate::encoding_lines::{play_begin_encoding, play_end_encoding, play_set_vertex_buffer};
use crate::query_lines::{
    play_begin_query, play_end_query, play_reset_queries, play_write_timestamp,
};
use crate::setting_lines::{
    play_set_blend_constants, play_set_index_buffer, play_set_scissor_rect, play_set_viewport,
};
use flat::call::Call;
use flat::line::{Line, Wrong};
use played::print::Printer;
use records::pipeline::PrivateCapabilities;
use records::state::{Answer, State};
use std::io::Write;

// The calls of one command or none, and the vertex buffers.
pub fn play_single<W: Write>(
    out: &mut Printer<W>,
    room: usize,
    line: &mut Line,
    call: Call,
    caps: PrivateCapabilities,
    s: State,
) -> Result<Answer, Wrong> {
    match call {
        Call::BeginEncoding => play_begin_encoding(line, caps, s),
        Call::EndEncoding => play_end_encoding(line, caps, s),
        Call::TransitionTextures => play_transition_textures(out, room, line, caps, s),
        Call::ClearBuffer => play_clear_buffer(out, room, line, caps, s),
        Call::BeginQuery => play_begin_query(out, room, line, caps, s),
        Call::EndQuery => play_end_query(out, room, line, caps, s),
        Call::WriteTimestamp => play_write_timestamp(out, room, line, caps, s),
        Call::ResetQueries => play_reset_queries(line, caps, s),
        Call::SetIndexBuffer => play_set_index_buffer(out, room, line, caps, s),
        Call::SetVertexBuffer => play_set_vertex_buffer(line, caps, s),
        Call::SetViewport => play_set_viewport(out, room, line, caps, s),
        Call::SetScissorRect => play_set_scissor_rect(out, room, line, caps, s),
        Call::SetBlendConstants => play_set_blend_constants(out, room, line, caps, s),
        Call::DispatchWorkgroups => play_dispatch_workgroups(out, room, line, caps, s),
        _ => play_dispatch_workgroups_indirect(out, room, line, caps, s),
    }
}
