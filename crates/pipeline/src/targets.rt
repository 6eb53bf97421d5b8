// The colour targets of a pipeline: "differing targets are set one by one, equal ones once for all,
// an empty list once with the default". The contracts cite specs/Fixed.antt.
ghost use Rattle.std.specs.Prelude.{◌≤◌, ◌≡◌, get_or, length};
ghost use Rattle.records.specs.Start.{start_target};
ghost use Rattle.slots.specs.Place.{Stands};
ghost use Rattle.pipeline.specs.Fixed.{targets_in, targets_of, same_targets, target_commands};
ghost use Rattle.pipeline.specs.Targets.{all_alike};

use records::check::{counted, within};
use records::command::{ColorTargetDesc, Command};
use records::limits::MAX_COLOR_ATTACHMENTS;
use records::pipeline::RenderPipeline;
use records::state::FixedState;

// Whether the pipeline's targets are those of the state.
pub(crate) fn same_targets(f: FixedState, p: RenderPipeline) -> bool
    ensures { result ≡ same_targets (targets_of f) (targets_in p) }
{
    let old = f.color_targets;
    let new = p.color_targets;
    counted(&old, f.color_target_count) == counted(&new, p.color_target_count)
}

fn target_in(targets: &[ColorTargetDesc], i: u32) -> ColorTargetDesc
    ensures { result ≡ get_or targets.now i start_target }
{
    targets
        .get(i as usize)
        .copied()
        .unwrap_or(ColorTargetDesc::new())
}

// Whether all targets are the same as the first, as they are where there is none.
pub(crate) fn all_alike(p: RenderPipeline) -> bool
    ensures { result ≡ all_alike p }
{
    let listed = p.color_targets;
    let targets = counted(&listed, p.color_target_count);
    let first = target_in(targets, 0);
    targets.iter().all(|t| *t == first)
}

pub(crate) fn target_count(p: RenderPipeline, alike: bool) -> u32
    ensures { (alike ≡ all_alike p → result ≡ length (target_commands (targets_in p))) × (result ≤ 8) }
{
    let n = within(p.color_target_count, MAX_COLOR_ATTACHMENTS);
    if alike { 1 } else { n as u32 }
}

// Command number k of the targets.
pub(crate) fn target_command_at(p: RenderPipeline, alike: bool, k: u32) -> Command
    ensures { alike ≡ all_alike p → Stands result k (target_commands (targets_in p)) }
{
    let listed = p.color_targets;
    let targets = counted(&listed, p.color_target_count);
    if alike {
        Command::SetColorTarget {
            draw_buffer_index: None,
            desc: target_in(targets, 0),
        }
    } else {
        Command::SetColorTarget {
            draw_buffer_index: Some(k),
            desc: target_in(targets, k),
        }
    }
}
