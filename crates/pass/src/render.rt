// The pass record at the beginning and the end of a pass. The contracts cite specs/Render.antt.
ghost use Rattle.std.specs.Prelude.{◌≡◌};
ghost use Rattle.records.specs.Check.{some?};
ghost use Rattle.records.specs.declared.pass.ColorPlace.{ColorPlace};
ghost use Rattle.pass.specs.Marks.{Lent, end_timestamp};
ghost use Rattle.pass.specs.Render.{places_of, default_first, to_external, invalidations as invalidations_of, clears_depth_kind, pass_wrong_kind, begin_render_pass_state, end_render_pass_state, begin_compute_pass_state, end_compute_pass_state};

use crate::clear::clears_depth_kind;
use crate::depth::{invalid_depth, invalid_stencil};
use crate::marks::end_timestamp;
use crate::place::{filled_default, filled_external, invalid_color};
use crate::resolves::lay_resolves;
use crate::survey::place_at;
use mask::mask_where;
use records::check::counted;
use records::pass::{RenderPassDescriptor, TimestampWrites};
use records::pipeline::PrivateCapabilities;
use records::state::PassState;

// Whether place 0 is the default renderbuffer.
pub(crate) fn default_first(d: RenderPassDescriptor) -> bool
    ensures { result ≡ default_first (places_of d) }
{
    let p = place_at(&d, 0);
    filled_default(p)
}

// The invalidation set: colours, depth, stencil.
pub(crate) fn invalidations(caps: PrivateCapabilities, d: RenderPassDescriptor) -> u32
    ensures { result ≡ invalidations_of caps d }
{
    let colors = mask_where(8, |i| invalid_color(caps, i, place_at(&d, i)));
    let target = d.depth_stencil_attachment;
    let depth = invalid_depth(target);
    let stencil = invalid_stencil(target);
    mask::set_if(mask::set_if(colors, 8, depth), 9, stencil)
}

// Whether some colour place is an external framebuffer.
pub(crate) fn to_external(d: &RenderPassDescriptor) -> bool
    ensures { result ≡ to_external (places_of d.now) }
{
    let places = counted(&d.color_attachments, d.color_attachment_count);
    places.iter().any(|p| filled_external(p.attachment))
}

// Whether some colour place clears a depth kind.
fn clears_wrong_kind(d: &RenderPassDescriptor) -> bool
    ensures { result ≡ some? (λ (p : ColorPlace). clears_depth_kind p.attachment) (places_of d.now) }
{
    let places = counted(&d.color_attachments, d.color_attachment_count);
    places.iter().any(|p| clears_depth_kind(p.attachment))
}

// Condition 5.
pub fn pass_wrong_kind(caps: PrivateCapabilities, d: RenderPassDescriptor) -> bool
    ensures { result ≡ pass_wrong_kind d }
{
    (to_external(&d) & (d.color_attachment_count != 1)) | clears_wrong_kind(&d)
}

pub fn begin_render_pass(
    set: &[u32],
    set_count: usize,
    caps: PrivateCapabilities,
    d: RenderPassDescriptor,
    label: bool,
    s: PassState,
) -> PassState
    ensures { (bytes : Lent) → result ≡ begin_render_pass_state caps d (record { present = label; bytes = bytes }) (record { run = set.now; count = set_count }) s }
{
    let old = s.end_of_pass_timestamp;
    let end_of_pass_timestamp = end_timestamp(set, set_count, d.timestamp_writes, old);
    let has_pass_label = label | s.has_pass_label;
    if default_first(d) {
        PassState {
            render_size: d.extent,
            resolve_count: 0,
            invalidate_attachments: 0,
            has_pass_label,
            end_of_pass_timestamp,
            ..s
        }
    } else {
        let laid = lay_resolves(caps, d, s);
        let resolves = laid.at;
        PassState {
            render_size: d.extent,
            resolves,
            resolve_count: laid.count,
            invalidate_attachments: invalidations(caps, d),
            has_pass_label,
            end_of_pass_timestamp,
        }
    }
}

pub fn end_render_pass(s: PassState) -> PassState
    ensures { result ≡ end_render_pass_state s }
{
    PassState {
        resolve_count: 0,
        invalidate_attachments: 0,
        has_pass_label: false,
        end_of_pass_timestamp: None,
        ..s
    }
}

pub fn begin_compute_pass(
    set: &[u32],
    set_count: usize,
    t: Option<TimestampWrites>,
    label: bool,
    s: PassState,
) -> PassState
    ensures { (bytes : Lent) → result ≡ begin_compute_pass_state (record { present = label; bytes = bytes }) (end_timestamp (record { run = set.now; count = set_count }) t s.end_of_pass_timestamp) s }
{
    PassState {
        has_pass_label: label | s.has_pass_label,
        end_of_pass_timestamp: end_timestamp(set, set_count, t, s.end_of_pass_timestamp),
        ..s
    }
}

pub fn end_compute_pass(s: PassState) -> PassState
    ensures { result ≡ end_compute_pass_state s }
{
    PassState {
        has_pass_label: false,
        end_of_pass_timestamp: None,
        ..s
    }
}
