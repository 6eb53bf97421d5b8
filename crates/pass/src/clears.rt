// The clears of a pass by place: place k of those that record one, then depth and stencil. The
// contracts cite specs/Render.antt and specs/Plan.antt.
ghost use Rattle.std.specs.Prelude.{◌≡◌};
ghost use Rattle.slots.specs.Place.{Stands};
ghost use Rattle.pass.specs.Render.{places_of, clear_colors};
ghost use Rattle.pass.specs.Plan.{cleared_mask, all_clears};

use crate::clear::clear_place;
use crate::depth::clear_depth;
use crate::survey::place_at;
use records::command::Command;
use records::pass::RenderPassDescriptor;

// Command number k of the colours' clears, to the draw buffer with the number of its place.
pub(crate) fn clear_color_at(d: RenderPassDescriptor, cleared: u32, k: u32) -> Command
    ensures { cleared ≡ cleared_mask d → Stands result k (clear_colors 0 (places_of d)) }
{
    let i = mask::nth(cleared, k);
    let p = place_at(&d, i);
    clear_place(i, p)
}

// Command number k of the clears.
pub(crate) fn clear_at(d: RenderPassDescriptor, cleared: u32, k: u32) -> Command
    ensures { cleared ≡ cleared_mask d → Stands result k (all_clears d) }
{
    if k < mask::count(cleared) {
        clear_color_at(d, cleared, k)
    } else {
        let target = d.depth_stencil_attachment;
        clear_depth(target)
    }
}
