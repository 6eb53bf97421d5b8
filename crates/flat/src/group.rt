// The arguments of `set_bind_group`.
ghost use Rattle.std.specs.Prelude.{◌≤◌, length, IfOk};

use crate::layout::{take_entries, take_layout};
use crate::line::{Line, Wrong};
use crate::runs::take_numbers;
use crate::small::take_range;
use records::binding::{BindGroup, Content, GroupEntries, PipelineLayout, RawBinding};
use records::command::ImageBinding;
use records::limits::MAX_BINDINGS;

fn take_buffer_binding(line: &mut Line) -> Result<RawBinding, Wrong> {
    let raw = line.take_u32()?;
    let offset = line.take_i32()?;
    let size = line.take_i32()?;
    Ok(RawBinding::Buffer { raw, offset, size })
}

fn take_texture_binding(line: &mut Line) -> Result<RawBinding, Wrong> {
    let raw = line.take_u32()?;
    let target = line.take_u32()?;
    let aspects = line.take_u8()? as u32;
    let mip_levels = take_range(line)?;
    Ok(RawBinding::Texture {
        raw,
        target,
        aspects,
        mip_levels,
    })
}

fn take_image_binding(line: &mut Line) -> Result<RawBinding, Wrong> {
    let raw = line.take_u32()?;
    let mip_level = line.take_u32()?;
    let array_layer = line.take_option(|l| l.take_u32())?;
    let access = line.take_u32()?;
    let format = line.take_u32()?;
    Ok(RawBinding::Image(ImageBinding {
        raw,
        mip_level,
        array_layer,
        access,
        format,
    }))
}

fn take_content(line: &mut Line) -> Result<Content, Wrong> {
    let binding = match line.take(3)? {
        0 => take_buffer_binding(line)?,
        1 => take_texture_binding(line)?,
        2 => take_image_binding(line)?,
        _ => RawBinding::Sampler(line.take_u32()?),
    };
    Ok(Content { binding })
}

fn take_contents(line: &mut Line) -> Result<BindGroup, Wrong> {
    let none = Content {
        binding: RawBinding::Sampler(0),
    };
    let mut contents = [none; MAX_BINDINGS];
    let content_count = line.take_list(&mut contents, take_content)?;
    Ok(BindGroup {
        contents,
        content_count,
    })
}

#[derive(Clone, Copy)]
pub struct BindGroupArgs {
    pub layout: PipelineLayout,
    pub index: u32,
    pub entries: GroupEntries,
    pub group: BindGroup,
    pub count: usize,
}

// The layout is read twice: for its shapes, and for the entries of the group that the index names.
// The dynamic offsets go into the run.
pub fn take_bind_group(line: &mut Line, offsets: &mut [u32]) -> Result<BindGroupArgs, Wrong>
    ensures { IfOk result (λ a. a.count ≤ length offsets.old) }
{
    let mut again = *line;
    let layout = take_layout(line)?;
    let index = line.take_u32()?;
    let group = take_contents(line)?;
    let count = take_numbers(line, offsets)?;
    let entries = take_entries(&mut again, index)?;
    Ok(BindGroupArgs {
        layout,
        index,
        entries,
        group,
        count,
    })
}
