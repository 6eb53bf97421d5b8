// The arguments of the pass beginnings.
ghost use Rattle.std.specs.Prelude.{◌≤◌, length, IfOk, IfSome};

use crate::line::{Line, Wrong};
use crate::place::{take_depth_stencil, take_place};
use crate::runs::{take_bytes, take_set};
use records::command::Extent3d;
use records::limits::MAX_COLOR_ATTACHMENTS;
use records::pass::{ColorPlace, RenderPassDescriptor, TimestampWrites};

// The label's length, where there is one: one of no bytes is present. The queries of the timestamps'
// set go into the run; its target is read and dropped.
#[derive(Clone, Copy)]
pub struct ComputePassArgs {
    pub label: Option<usize>,
    pub timestamp_writes: Option<TimestampWrites>,
    pub set_count: usize,
}

#[derive(Clone, Copy)]
pub struct RenderPassArgs {
    pub desc: RenderPassDescriptor,
    pub label: Option<usize>,
    pub set_count: usize,
}

// A label into the run.
pub fn take_label(line: &mut Line, out: &mut [u8]) -> Result<Option<usize>, Wrong>
    ensures { IfOk result (λ label. IfSome label (λ n. n ≤ length out.old)) }
{
    if line.take_bool()? {
        return Ok(Some(take_bytes(line, out)?));
    }
    Ok(None)
}

fn take_writes(line: &mut Line) -> Result<TimestampWrites, Wrong> {
    let beginning_of_pass_write_index = line.take_option(|l| l.take_u32())?;
    let end_of_pass_write_index = line.take_option(|l| l.take_u32())?;
    Ok(TimestampWrites {
        beginning_of_pass_write_index,
        end_of_pass_write_index,
    })
}

pub fn take_compute_pass(
    line: &mut Line,
    label: &mut [u8],
    set: &mut [u32],
) -> Result<ComputePassArgs, Wrong>
    ensures label_bound { IfOk result (λ a. IfSome a.label (λ n. n ≤ length label.old)) }
    ensures set_count_bound { IfOk result (λ a. a.set_count ≤ length set.old) }
{
    let label = take_label(line, label)?;
    if line.take_bool()? {
        let set_count = take_set(line, set)?.count;
        let timestamp_writes = Some(take_writes(line)?);
        return Ok(ComputePassArgs {
            label,
            timestamp_writes,
            set_count,
        });
    }
    Ok(ComputePassArgs {
        label,
        timestamp_writes: None,
        set_count: 0,
    })
}

fn take_extent(line: &mut Line) -> Result<Extent3d, Wrong> {
    let width = line.take_u32()?;
    let height = line.take_u32()?;
    let depth_or_array_layers = line.take_u32()?;
    Ok(Extent3d {
        width,
        height,
        depth_or_array_layers,
    })
}

pub fn take_render_pass(
    line: &mut Line,
    label: &mut [u8],
    set: &mut [u32],
) -> Result<RenderPassArgs, Wrong>
    ensures label_bound { IfOk result (λ a. IfSome a.label (λ n. n ≤ length label.old)) }
    ensures set_count_bound { IfOk result (λ a. a.set_count ≤ length set.old) }
{
    let extent = take_extent(line)?;
    let sample_count = line.take_u32()?;
    let pass = take_compute_pass(line, label, set)?;
    let mut color_attachments = [ColorPlace { attachment: None }; MAX_COLOR_ATTACHMENTS];
    let color_attachment_count = line.take_list(&mut color_attachments, take_place)?;
    let depth_stencil_attachment = line.take_option(take_depth_stencil)?;
    let desc = RenderPassDescriptor {
        extent,
        sample_count,
        color_attachments,
        color_attachment_count,
        depth_stencil_attachment,
        timestamp_writes: pass.timestamp_writes,
    };
    Ok(RenderPassArgs {
        desc,
        label: pass.label,
        set_count: pass.set_count,
    })
}
