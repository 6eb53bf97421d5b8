// The attachments of a pass by place: place k of the filled ones, then depth and stencil. The
// contracts cite specs/Render.antt and specs/Plan.antt.
ghost use Rattle.std.specs.Prelude.{◌≡◌};
ghost use Rattle.slots.specs.Place.{Stands};
ghost use Rattle.pass.specs.Render.{places_of, attach_colors, attachments};
ghost use Rattle.pass.specs.Plan.{filled_mask};

use crate::depth::attach_depth;
use crate::place::attach_place;
use crate::survey::place_at;
use records::command::Command;
use records::pass::RenderPassDescriptor;
use records::pipeline::PrivateCapabilities;

// Command number k of the colours' attachments.
pub(crate) fn attach_color_at(
    caps: PrivateCapabilities,
    d: RenderPassDescriptor,
    filled: u32,
    k: u32,
) -> Command
    ensures { filled ≡ filled_mask d → Stands result k (attach_colors caps d.sample_count 0 (places_of d)) }
{
    let i = mask::nth(filled, k);
    let p = place_at(&d, i);
    attach_place(caps, d.sample_count, i, p)
}

// Command number k of the attachments.
pub(crate) fn attachment_at(
    caps: PrivateCapabilities,
    d: RenderPassDescriptor,
    filled: u32,
    k: u32,
) -> Command
    ensures { filled ≡ filled_mask d → Stands result k (attachments caps d) }
{
    if k < mask::count(filled) {
        attach_color_at(caps, d, filled, k)
    } else {
        let target = d.depth_stencil_attachment;
        attach_depth(target)
    }
}
