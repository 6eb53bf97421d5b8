// Small arguments: floats from their bits, and records of a few numbers.
use crate::line::{Line, Wrong};
use numbers::{of_bits32, of_bits64};
use records::args::{Buffer, RectF32, RectU32};
use records::command::{ColorF32, DepthRange, MemoryRange, RangeU32};
use records::state::IndexFormat;

pub(crate) fn take_f32(line: &mut Line) -> Result<f32, Wrong> {
    Ok(of_bits32(line.take_u32()?))
}

pub(crate) fn take_f64(line: &mut Line) -> Result<f64, Wrong> {
    Ok(of_bits64(line.take_u64()?))
}

pub(crate) fn take_range(line: &mut Line) -> Result<RangeU32, Wrong> {
    let start = line.take_u32()?;
    let end = line.take_u32()?;
    Ok(RangeU32 { start, end })
}

// The buffer's size is read and dropped.
pub fn take_buffer(line: &mut Line) -> Result<Buffer, Wrong> {
    let raw = line.take_u32()?;
    let target = line.take_u32()?;
    line.take_u64()?;
    Ok(Buffer { raw, target })
}

pub fn take_rect_f32(line: &mut Line) -> Result<RectF32, Wrong> {
    let x = take_f32(line)?;
    let y = take_f32(line)?;
    let w = take_f32(line)?;
    let h = take_f32(line)?;
    Ok(RectF32 { x, y, w, h })
}

pub fn take_rect_u32(line: &mut Line) -> Result<RectU32, Wrong> {
    let x = line.take_u32()?;
    let y = line.take_u32()?;
    let w = line.take_u32()?;
    let h = line.take_u32()?;
    Ok(RectU32 { x, y, w, h })
}

pub fn take_depth_range(line: &mut Line) -> Result<DepthRange, Wrong> {
    let start = take_f32(line)?;
    let end = take_f32(line)?;
    Ok(DepthRange { start, end })
}

pub fn take_color(line: &mut Line) -> Result<ColorF32, Wrong> {
    let r = take_f32(line)?;
    let g = take_f32(line)?;
    let b = take_f32(line)?;
    let a = take_f32(line)?;
    Ok(ColorF32 { r, g, b, a })
}

pub fn take_memory_range(line: &mut Line) -> Result<MemoryRange, Wrong> {
    let start = line.take_u64()?;
    let end = line.take_u64()?;
    Ok(MemoryRange { start, end })
}

pub fn take_index_format(line: &mut Line) -> Result<IndexFormat, Wrong> {
    line.take_one_of(&[IndexFormat::Uint16, IndexFormat::Uint32])
}
