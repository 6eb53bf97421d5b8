// What `set_bind_group` is handed: `PipelineLayout`, `BindGroupLayoutInfo`, `BindGroup` and
// `RawBinding` of gles/mod.rs.
use crate::command::{ImageBinding, RangeU32};
use crate::limits::{MAX_BIND_GROUPS, MAX_BINDINGS};

#[derive(Clone, Copy, Debug, PartialEq, Eq)]
pub enum BufferBindingType {
    Uniform,
    Storage,
}

#[derive(Clone, Copy, Debug, PartialEq, Eq)]
pub enum BindingType {
    Buffer {
        ty: BufferBindingType,
        has_dynamic_offset: bool,
    },
    Texture,
    StorageTexture,
    Sampler,
}

// An entry of a group's layout, with what the group's slot table has at its binding number; a slot
// above 255 stands for a number past the table.
#[derive(Clone, Copy, Debug, PartialEq, Eq)]
pub struct BindGroupLayoutEntry {
    pub binding: u32,
    pub ty: BindingType,
    pub slot: u32,
}

// A group of the layout: whether it has a record, and how many entries.
// No `Option`: a count without a record is a case of its own (cases/specs/Readings.antt; the edit
// `long_without_record`).
#[derive(Clone, Copy, Debug, PartialEq, Eq)]
pub struct GroupShape {
    pub present: bool,
    pub entry_count: usize,
}

// An `ArrayVec` is an array beside its count (no heap); so is `BindGroup`.
#[derive(Clone, Copy)]
pub struct PipelineLayout {
    pub groups: [GroupShape; MAX_BIND_GROUPS],
    pub group_count: usize,
}

// The entries of the group that the call names.
#[derive(Clone, Copy)]
pub struct GroupEntries {
    pub entries: [BindGroupLayoutEntry; MAX_BINDINGS],
}

#[derive(Clone, Copy, Debug, PartialEq, Eq)]
pub enum RawBinding {
    Buffer {
        raw: u32,
        offset: i32,
        size: i32,
    },
    Texture {
        raw: u32,
        target: u32,
        aspects: u32,
        mip_levels: RangeU32,
    },
    Image(ImageBinding),
    Sampler(u32),
}

#[derive(Clone, Copy, Debug, PartialEq, Eq)]
pub struct Content {
    pub binding: RawBinding,
}

#[derive(Clone, Copy)]
pub struct BindGroup {
    pub contents: [Content; MAX_BINDINGS],
    pub content_count: usize,
}
