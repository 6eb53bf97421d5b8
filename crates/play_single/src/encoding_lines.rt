// Encodings and the vertex buffers, by their lines.
use calls::encoding::{begin_encoding, end_encoding, set_vertex_buffer};
use flat::line::{Line, Wrong};
use flat::lines::vertex_buffer_line;
use records::pipeline::PrivateCapabilities;
use records::state::{Answer, State};

pub(crate) fn play_begin_encoding(
    line: &mut Line,
    caps: PrivateCapabilities,
    s: State,
) -> Result<Answer, Wrong> {
    line.end()?;
    Ok(begin_encoding(caps, s))
}

pub(crate) fn play_end_encoding(
    line: &mut Line,
    caps: PrivateCapabilities,
    s: State,
) -> Result<Answer, Wrong> {
    line.end()?;
    Ok(end_encoding(caps, s))
}

pub(crate) fn play_set_vertex_buffer(
    line: &mut Line,
    caps: PrivateCapabilities,
    s: State,
) -> Result<Answer, Wrong> {
    let a = vertex_buffer_line(line)?;
    Ok(set_vertex_buffer(caps, s, a.index, a.buffer.raw, a.offset))
}
