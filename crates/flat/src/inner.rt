// What both kinds of pipeline have.
use crate::line::{Line, Wrong};
use records::command::ImmediateDesc;
use records::limits::{MAX_IMMEDIATES_COMMANDS, MAX_TEXTURE_SLOTS};
use records::pipeline::{PipelineInner, SamplerBind};

fn take_desc(line: &mut Line) -> Result<ImmediateDesc, Wrong> {
    let location = line.take_u32()?;
    let ty = line.take_u32()?;
    let offset = line.take_u32()?;
    let size_bytes = line.take_u32()?;
    Ok(ImmediateDesc {
        location,
        ty,
        offset,
        size_bytes,
    })
}

// One for each texture slot, with no count before them.
fn take_samplers(line: &mut Line) -> Result<[SamplerBind; MAX_TEXTURE_SLOTS], Wrong> {
    let mut map = [SamplerBind {
        sampler_index: None,
    }; MAX_TEXTURE_SLOTS];
    for bind in &mut map {
        bind.sampler_index = line.take_option(|l| Ok(l.take_u8()? as u32))?;
    }
    Ok(map)
}

pub(crate) fn take_inner(line: &mut Line) -> Result<PipelineInner, Wrong> {
    let program = line.take_u32()?;
    let first_instance_location = line.take_option(|l| l.take_u32())?;
    let clip_distance_count = line.take_u32()?;
    let sampler_map = take_samplers(line)?;
    let none = ImmediateDesc {
        location: 0,
        ty: 0,
        offset: 0,
        size_bytes: 0,
    };
    let mut immediates_descs = [none; MAX_IMMEDIATES_COMMANDS];
    let immediates_count = line.take_list(&mut immediates_descs, take_desc)?;
    Ok(PipelineInner {
        program,
        sampler_map,
        first_instance_location,
        immediates_descs,
        immediates_count,
        clip_distance_count,
    })
}
