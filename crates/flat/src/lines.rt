// The arguments of a call's line, to its end.
use crate::line::{Line, Wrong};
use crate::runs::{QuerySet, take_numbers, take_regions, take_set};
use crate::small::{
    take_buffer, take_depth_range, take_index_format, take_memory_range, take_range, take_rect_f32,
};
use records::args::{Buffer, RectF32};
use records::command::{DepthRange, MemoryRange, RangeU32};
use records::state::IndexFormat;

// A draw.
#[derive(Clone, Copy)]
pub struct DrawLine {
    pub first_vertex: u32,
    pub vertex_count: u32,
    pub first_instance: u32,
    pub instance_count: u32,
}

pub fn draw_line(line: &mut Line) -> Result<DrawLine, Wrong> {
    let first_vertex = line.take_u32()?;
    let vertex_count = line.take_u32()?;
    let first_instance = line.take_u32()?;
    let instance_count = line.take_u32()?;
    line.end()?;
    Ok(DrawLine {
        first_vertex,
        vertex_count,
        first_instance,
        instance_count,
    })
}

// A draw by indices.
#[derive(Clone, Copy)]
pub struct DrawIndexedLine {
    pub first_index: u32,
    pub index_count: u32,
    pub base_vertex: i32,
    pub first_instance: u32,
    pub instance_count: u32,
}

pub fn draw_indexed_line(line: &mut Line) -> Result<DrawIndexedLine, Wrong> {
    let first_index = line.take_u32()?;
    let index_count = line.take_u32()?;
    let base_vertex = line.take_i32()?;
    let first_instance = line.take_u32()?;
    let instance_count = line.take_u32()?;
    line.end()?;
    Ok(DrawIndexedLine {
        first_index,
        index_count,
        base_vertex,
        first_instance,
        instance_count,
    })
}

// Draws whose arguments stand in a buffer.
#[derive(Clone, Copy)]
pub struct IndirectLine {
    pub buffer: Buffer,
    pub offset: u64,
    pub draw_count: u32,
}

pub fn indirect_line(line: &mut Line) -> Result<IndirectLine, Wrong> {
    let buffer = take_buffer(line)?;
    let offset = line.take_u64()?;
    let draw_count = line.take_u32()?;
    line.end()?;
    Ok(IndirectLine {
        buffer,
        offset,
        draw_count,
    })
}

// A dispatch.
#[derive(Clone, Copy)]
pub struct DispatchLine {
    pub x: u32,
    pub y: u32,
    pub z: u32,
}

pub fn dispatch_line(line: &mut Line) -> Result<DispatchLine, Wrong> {
    let x = line.take_u32()?;
    let y = line.take_u32()?;
    let z = line.take_u32()?;
    line.end()?;
    Ok(DispatchLine { x, y, z })
}

// A buffer and a place in it.
#[derive(Clone, Copy)]
pub struct PlaceLine {
    pub buffer: Buffer,
    pub offset: u64,
}

pub fn place_line(line: &mut Line) -> Result<PlaceLine, Wrong> {
    let buffer = take_buffer(line)?;
    let offset = line.take_u64()?;
    line.end()?;
    Ok(PlaceLine { buffer, offset })
}

// A range of a buffer.
#[derive(Clone, Copy)]
pub struct ClearLine {
    pub buffer: Buffer,
    pub range: MemoryRange,
}

pub fn clear_line(line: &mut Line) -> Result<ClearLine, Wrong> {
    let buffer = take_buffer(line)?;
    let range = take_memory_range(line)?;
    line.end()?;
    Ok(ClearLine { buffer, range })
}

// An index buffer.
#[derive(Clone, Copy)]
pub struct IndexBufferLine {
    pub buffer: Buffer,
    pub offset: u64,
    pub format: IndexFormat,
}

pub fn index_buffer_line(line: &mut Line) -> Result<IndexBufferLine, Wrong> {
    let buffer = take_buffer(line)?;
    let offset = line.take_u64()?;
    let format = take_index_format(line)?;
    line.end()?;
    Ok(IndexBufferLine {
        buffer,
        offset,
        format,
    })
}

// A vertex buffer and its slot.
#[derive(Clone, Copy)]
pub struct VertexBufferLine {
    pub index: u32,
    pub buffer: Buffer,
    pub offset: u64,
}

pub fn vertex_buffer_line(line: &mut Line) -> Result<VertexBufferLine, Wrong> {
    let index = line.take_u32()?;
    let buffer = take_buffer(line)?;
    let offset = line.take_u64()?;
    line.end()?;
    Ok(VertexBufferLine {
        index,
        buffer,
        offset,
    })
}

// A viewport.
#[derive(Clone, Copy)]
pub struct ViewportLine {
    pub rect: RectF32,
    pub depth: DepthRange,
}

pub fn viewport_line(line: &mut Line) -> Result<ViewportLine, Wrong> {
    let rect = take_rect_f32(line)?;
    let depth = take_depth_range(line)?;
    line.end()?;
    Ok(ViewportLine { rect, depth })
}

// A query of a set; the set's queries go into the run.
#[derive(Clone, Copy)]
pub struct QueryLine {
    pub set: QuerySet,
    pub index: u32,
}

pub fn query_line(line: &mut Line, out: &mut [u32]) -> Result<QueryLine, Wrong> {
    let set = take_set(line, out)?;
    let index = line.take_u32()?;
    line.end()?;
    Ok(QueryLine { set, index })
}

// A range of a set's queries.
#[derive(Clone, Copy)]
pub struct QueriesLine {
    pub set: QuerySet,
    pub range: RangeU32,
}

fn take_queries(line: &mut Line, out: &mut [u32]) -> Result<QueriesLine, Wrong> {
    let set = take_set(line, out)?;
    let range = take_range(line)?;
    Ok(QueriesLine { set, range })
}

pub fn queries_line(line: &mut Line, out: &mut [u32]) -> Result<QueriesLine, Wrong> {
    let queries = take_queries(line, out)?;
    line.end()?;
    Ok(queries)
}

// A range of a set's queries and where their results go; the stride is read and dropped.
#[derive(Clone, Copy)]
pub struct ResultsLine {
    pub queries: QueriesLine,
    pub buffer: Buffer,
    pub offset: u64,
}

pub fn results_line(line: &mut Line, out: &mut [u32]) -> Result<ResultsLine, Wrong> {
    let queries = take_queries(line, out)?;
    let buffer = take_buffer(line)?;
    let offset = line.take_u64()?;
    line.take_u64()?;
    line.end()?;
    Ok(ResultsLine {
        queries,
        buffer,
        offset,
    })
}

// Copies from a buffer to a buffer; the regions go into the run.
#[derive(Clone, Copy)]
pub struct CopiesLine {
    pub src: Buffer,
    pub dst: Buffer,
    pub count: usize,
}

pub fn copies_line(line: &mut Line, out: &mut [u64]) -> Result<CopiesLine, Wrong> {
    let src = take_buffer(line)?;
    let dst = take_buffer(line)?;
    let count = take_regions(line, out)?;
    line.end()?;
    Ok(CopiesLine { src, dst, count })
}

// Immediates; their words go into the run.
#[derive(Clone, Copy)]
pub struct ImmediatesLine {
    pub offset: u32,
    pub count: usize,
}

pub fn immediates_line(line: &mut Line, out: &mut [u32]) -> Result<ImmediatesLine, Wrong> {
    let offset = line.take_u32()?;
    let count = take_numbers(line, out)?;
    line.end()?;
    Ok(ImmediatesLine { offset, count })
}
