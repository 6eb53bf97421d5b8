// The slots and attributes of a render pipeline.
use crate::line::{Line, Wrong};
use records::command::{
    AttributeDesc, VertexAttribKind, VertexBufferDesc, VertexFormatDesc, VertexStepMode,
};
use records::pipeline::VertexBufferLayout;

fn take_buffer_desc(line: &mut Line) -> Result<VertexBufferDesc, Wrong> {
    let step = line.take_one_of(&[VertexStepMode::Vertex, VertexStepMode::Instance])?;
    let stride = line.take_u32()?;
    Ok(VertexBufferDesc { step, stride })
}

pub(crate) fn take_slot(line: &mut Line) -> Result<VertexBufferLayout, Wrong> {
    let desc = line.take_option(take_buffer_desc)?;
    Ok(VertexBufferLayout { desc })
}

fn take_format(line: &mut Line) -> Result<VertexFormatDesc, Wrong> {
    let element_count = line.take_i32()?;
    let element_format = line.take_u32()?;
    let attrib_kind = line.take_one_of(&[VertexAttribKind::Float, VertexAttribKind::Integer])?;
    Ok(VertexFormatDesc {
        element_count,
        element_format,
        attrib_kind,
    })
}

pub(crate) fn take_attribute(line: &mut Line) -> Result<AttributeDesc, Wrong> {
    let location = line.take_u32()?;
    let offset = line.take_u32()?;
    let buffer_index = line.take_u32()?;
    let format_desc = take_format(line)?;
    Ok(AttributeDesc {
        location,
        offset,
        buffer_index,
        format_desc,
    })
}
