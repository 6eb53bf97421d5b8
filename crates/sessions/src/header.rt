// The first line of a session: the board, the rooms and the number of calls.
ghost use Rattle.std.specs.Prelude.{◌≤◌, IfOk};

use flat::line::{Line, Wrong};
use records::limits::{MAX_BYTES, MAX_COMMANDS, MAX_QUERIES};
use records::pipeline::PrivateCapabilities;

#[derive(Clone, Copy)]
pub struct Header {
    pub caps: PrivateCapabilities,
    pub commands: usize,
    pub bytes: usize,
    pub queries: usize,
    pub calls: usize,
}

fn take_board(line: &mut Line) -> Result<PrivateCapabilities, Wrong> {
    let vertex_buffer_layout = line.take_bool()?;
    let memory_barriers = line.take_bool()?;
    let fully_featured_instancing = line.take_bool()?;
    let multisampled_render_to_texture = line.take_bool()?;
    Ok(PrivateCapabilities {
        memory_barriers,
        vertex_buffer_layout,
        fully_featured_instancing,
        multisampled_render_to_texture,
    })
}

// A session may have `most` calls.
pub fn take_header(line: &mut Line, most: usize) -> Result<Header, Wrong>
    ensures { IfOk result (λ h. (h.commands ≤ 4096)
        × (h.bytes ≤ 65536)
        × (h.queries ≤ 1024)
        × (h.calls ≤ most)) }
{
    let caps = take_board(line)?;
    let commands = line.take_count(MAX_COMMANDS)?;
    let bytes = line.take_count(MAX_BYTES)?;
    let queries = line.take_count(MAX_QUERIES)?;
    let calls = line.take_count(most)?;
    line.end()?;
    Ok(Header {
        caps,
        commands,
        bytes,
        queries,
        calls,
    })
}
