// The eight colour places of a pass, and which of them have an attachment and record a clear. The
// contracts cite specs/Places.antt and specs/Plan.antt.
ghost use Rattle.std.specs.Prelude.{◌≡◌};
ghost use Rattle.pass.specs.Places.{place_at};
ghost use Rattle.pass.specs.Plan.{filled_mask, cleared_mask};

use crate::clear::is_cleared;
use mask::mask_where;
use records::check::counted;
use records::pass::{ColorAttachment, RenderPassDescriptor};

// Place i; past the count it is empty.
pub(crate) fn place_at(d: &RenderPassDescriptor, i: u32) -> Option<ColorAttachment>
    ensures { result ≡ place_at d.now i }
{
    counted(&d.color_attachments, d.color_attachment_count)
        .get(i as usize)?
        .attachment
}

// The places that have an attachment.
pub(crate) fn filled_mask(d: &RenderPassDescriptor) -> u32
    ensures { result ≡ filled_mask d.now }
{
    mask_where(8, |i| place_at(d, i).is_some())
}

// The places that record a clear.
pub(crate) fn cleared_mask(d: &RenderPassDescriptor) -> u32
    ensures { result ≡ cleared_mask d.now }
{
    mask_where(8, |i| is_cleared(place_at(d, i)))
}
