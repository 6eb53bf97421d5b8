// The settings of a render pass, by their lines.
use crate::one::played_one;
use flat::line::{Line, Wrong};
use flat::lines::{index_buffer_line, viewport_line};
use flat::small::{take_color, take_rect_u32};
use played::print::Printer;
use records::pipeline::PrivateCapabilities;
use records::state::{Answer, State};
use single_calls::settings::{
    plan_set_blend_constants, plan_set_index_buffer, plan_set_scissor_rect, plan_set_viewport,
};
use std::io::Write;

pub(crate) fn play_set_index_buffer<W: Write>(
    out: &mut Printer<W>,
    room: usize,
    line: &mut Line,
    caps: PrivateCapabilities,
    s: State,
) -> Result<Answer, Wrong> {
    let a = index_buffer_line(line)?;
    let plan = plan_set_index_buffer(room, caps, s, a.buffer.raw, a.offset, a.format);
    Ok(played_one(out, plan, s))
}

pub(crate) fn play_set_viewport<W: Write>(
    out: &mut Printer<W>,
    room: usize,
    line: &mut Line,
    caps: PrivateCapabilities,
    s: State,
) -> Result<Answer, Wrong> {
    let a = viewport_line(line)?;
    let plan = plan_set_viewport(room, caps, s, a.rect, a.depth);
    Ok(played_one(out, plan, s))
}

pub(crate) fn play_set_scissor_rect<W: Write>(
    out: &mut Printer<W>,
    room: usize,
    line: &mut Line,
    caps: PrivateCapabilities,
    s: State,
) -> Result<Answer, Wrong> {
    let rect = take_rect_u32(line)?;
    line.end()?;
    let plan = plan_set_scissor_rect(room, caps, s, rect);
    Ok(played_one(out, plan, s))
}

pub(crate) fn play_set_blend_constants<W: Write>(
    out: &mut Printer<W>,
    room: usize,
    line: &mut Line,
    caps: PrivateCapabilities,
    s: State,
) -> Result<Answer, Wrong> {
    let color = take_color(line)?;
    line.end()?;
    let plan = plan_set_blend_constants(room, caps, s, color);
    Ok(played_one(out, plan, s))
}
