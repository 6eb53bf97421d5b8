// One colour place: what it is attached with, resolved to and invalidated. The contracts cite
// specs/Render.antt and specs/Places.antt.
ghost use Rattle.std.specs.Prelude.{◌+◌, ◌<◌, ◌^◌, ◌≡◌, cond, Some, None};
ghost use Rattle.names.specs.Gl.{GL_COLOR_ATTACHMENT0};
ghost use Rattle.slots.specs.Place.{within};
ghost use Rattle.pass.specs.Render.{is_default, is_external, is_texture, filled_with, resolves_in_place, attach_color, invalid_color};
ghost use Rattle.pass.specs.Places.{is_resolved, attach_command, resolve_desc};

use records::command::{Command, TextureInner, TextureView};
use records::pass::ColorAttachment;
use records::pipeline::PrivateCapabilities;
use records::state::ResolveDesc;

pub const COLOR_ATTACHMENT0: u32 = 0x8ce0;
// The places of the bits of `AttachmentOps`.
pub const CLEAR: u32 = 1;

pub const STORE: u32 = 3;

pub const DISCARD: u32 = 4;

fn is_default(t: TextureInner) -> bool
    ensures { result ≡ is_default t }
{
    matches!(t, TextureInner::DefaultRenderbuffer)
}

fn is_external(t: TextureInner) -> bool
    ensures { result ≡ is_external t }
{
    matches!(t, TextureInner::ExternalNativeFramebuffer(_))
}

fn is_texture(t: TextureInner) -> bool
    ensures { result ≡ is_texture t }
{
    matches!(t, TextureInner::Texture { .. })
}

pub(crate) fn filled_default(p: Option<ColorAttachment>) -> bool
    ensures { result ≡ filled_with is_default p }
{
    p.is_some_and(|a| is_default(a.view.inner))
}

pub(crate) fn filled_external(p: Option<ColorAttachment>) -> bool
    ensures { result ≡ filled_with is_external p }
{
    p.is_some_and(|a| is_external(a.view.inner))
}

// Whether the resolve view is attached in place of the view of place i.
pub(crate) fn resolves_in_place(
    caps: PrivateCapabilities,
    i: u32,
    ops: u32,
    target: Option<TextureView>,
) -> bool
    ensures { result ≡ resolves_in_place caps i ops target }
{
    let stores = mask::test(ops, STORE);
    let in_place = caps.multisampled_render_to_texture & (!stores & (i == 0));
    target.is_some_and(|v| is_texture(v.inner) & in_place)
}

// The attachment point of place i; 0 where it leaves its field.
pub(crate) fn color_point(i: u32) -> u32
    ensures { result ≡ within (2 ^ 32) (GL_COLOR_ATTACHMENT0 + i) }
{
    COLOR_ATTACHMENT0.checked_add(i).unwrap_or(0)
}

fn attach_color(caps: PrivateCapabilities, samples: u32, i: u32, a: ColorAttachment) -> Command
    ensures { i < 8 → result ≡ attach_color caps samples i a }
{
    let target = a.resolve_target;
    let view = a.view;
    let attachment = color_point(i);
    if resolves_in_place(caps, i, a.ops, target) {
        Command::BindAttachment {
            attachment,
            view: target.unwrap_or(view),
            depth_slice: None,
            sample_count: samples,
        }
    } else {
        let depth_slice = a.depth_slice;
        Command::BindAttachment {
            attachment,
            view,
            depth_slice,
            sample_count: 1,
        }
    }
}

// The attachment of place i. A match: the contract under `i < 8` did not close over `map_or`.
pub(crate) fn attach_place(
    caps: PrivateCapabilities,
    samples: u32,
    i: u32,
    p: Option<ColorAttachment>,
) -> Command
    ensures { i < 8 → result ≡ attach_command caps samples i p }
{
    match p {
        None => Command::PopDebugGroup,
        Some(a) => attach_color(caps, samples, i, a),
    }
}

// The resolve of place i, where the end of the pass makes one.
pub(crate) fn resolve_of(
    caps: PrivateCapabilities,
    i: u32,
    p: Option<ColorAttachment>,
) -> Option<ResolveDesc>
    ensures { result ≡ cond (is_resolved caps i p) (Some (resolve_desc i p)) None }
{
    let a = p?;
    let dst = a.resolve_target?;
    if resolves_in_place(caps, i, a.ops, a.resolve_target) {
        None
    } else {
        Some(ResolveDesc { place: i, dst })
    }
}

// Whether the end of the pass invalidates place i.
pub(crate) fn invalid_color(caps: PrivateCapabilities, i: u32, p: Option<ColorAttachment>) -> bool
    ensures { result ≡ invalid_color caps i p }
{
    p.is_some_and(|a| {
        !resolves_in_place(caps, i, a.ops, a.resolve_target) & mask::test(a.ops, DISCARD)
    })
}
