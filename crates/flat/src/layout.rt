// A pipeline layout: the shape of each group, and the entries of one.
use crate::line::{Line, MAX_COUNT, Wrong};
use records::binding::{
    BindGroupLayoutEntry, BindingType, BufferBindingType, GroupEntries, GroupShape, PipelineLayout,
};
use records::limits::{MAX_BIND_GROUPS, MAX_BINDINGS};

fn buffer_type(ty: BufferBindingType, has_dynamic_offset: bool) -> BindingType {
    BindingType::Buffer {
        ty,
        has_dynamic_offset,
    }
}

fn take_binding_type(line: &mut Line) -> Result<BindingType, Wrong> {
    line.take_one_of(&[
        buffer_type(BufferBindingType::Uniform, false),
        buffer_type(BufferBindingType::Uniform, true),
        buffer_type(BufferBindingType::Storage, false),
        buffer_type(BufferBindingType::Storage, true),
        BindingType::Texture,
        BindingType::StorageTexture,
        BindingType::Sampler,
    ])
}

fn take_entry(line: &mut Line) -> Result<BindGroupLayoutEntry, Wrong> {
    let binding = line.take_u32()?;
    let ty = take_binding_type(line)?;
    let slot = line.take(256)? as u32;
    Ok(BindGroupLayoutEntry { binding, ty, slot })
}

fn no_entries() -> [BindGroupLayoutEntry; MAX_BINDINGS] {
    [BindGroupLayoutEntry {
        binding: 0,
        ty: BindingType::Sampler,
        slot: 0,
    }; MAX_BINDINGS]
}

// A group of the layout; its entries go into the array.
fn take_group(line: &mut Line, entries: &mut [BindGroupLayoutEntry]) -> Result<GroupShape, Wrong> {
    let present = line.take_bool()?;
    let entry_count = if present {
        line.take_list(entries, take_entry)?
    } else {
        0
    };
    Ok(GroupShape {
        present,
        entry_count,
    })
}

pub(crate) fn take_layout(line: &mut Line) -> Result<PipelineLayout, Wrong> {
    let absent = GroupShape {
        present: false,
        entry_count: 0,
    };
    let mut groups = [absent; MAX_BIND_GROUPS];
    let group_count = line.take_list(&mut groups, |l| take_group(l, &mut []))?;
    Ok(PipelineLayout {
        groups,
        group_count,
    })
}

// The entries of the group at `index` of the layout that begins here.
pub(crate) fn take_entries(line: &mut Line, index: u32) -> Result<GroupEntries, Wrong> {
    let mut entries = no_entries();
    let count = line.take_count(MAX_COUNT)?;
    if (index as usize) < count {
        for _ in 0..index {
            take_group(line, &mut [])?;
        }
        take_group(line, &mut entries)?;
    }
    Ok(GroupEntries { entries })
}
