// Depth and stencil of a pass. The contracts cite specs/Render.antt and specs/Places.antt.
ghost use Rattle.std.specs.Prelude.{◌≡◌, get_or, Some};
ghost use Rattle.pass.specs.Render.{depth_point, invalid_depth, invalid_stencil, clear_both};
ghost use Rattle.pass.specs.Places.{clears_depth, attach_depth_command, clear_depth_command, no_command};

use crate::place::{CLEAR, DISCARD};
use records::command::Command;
use records::pass::{ASPECT_DEPTH, ASPECT_STENCIL, DepthStencilAttachment};

pub const DEPTH_ATTACHMENT: u32 = 0x8d00;

pub const STENCIL_ATTACHMENT: u32 = 0x8d20;

pub const DEPTH_STENCIL_ATTACHMENT: u32 = 0x821a;

// The attachment point by the view's aspects.
fn depth_point(aspects: u32) -> u32
    ensures { result ≡ depth_point aspects }
{
    if aspects == ASPECT_DEPTH {
        return DEPTH_ATTACHMENT;
    }
    if aspects == ASPECT_STENCIL {
        STENCIL_ATTACHMENT
    } else {
        DEPTH_STENCIL_ATTACHMENT
    }
}

fn bind_depth(d: DepthStencilAttachment) -> Command
    ensures { result ≡ attach_depth_command (Some d) }
{
    let view = d.view;
    Command::BindAttachment {
        attachment: depth_point(view.aspects),
        view,
        depth_slice: None,
        sample_count: 1,
    }
}

pub(crate) fn attach_depth(t: Option<DepthStencilAttachment>) -> Command
    ensures { result ≡ attach_depth_command t }
{
    t.map_or(Command::PopDebugGroup, bind_depth)
}

// Bit 8 of the invalidation set.
pub(crate) fn invalid_depth(t: Option<DepthStencilAttachment>) -> bool
    ensures { result ≡ invalid_depth t }
{
    t.is_some_and(|d| mask::test(d.view.aspects, 1) & mask::test(d.depth_ops, DISCARD))
}

// Bit 9.
pub(crate) fn invalid_stencil(t: Option<DepthStencilAttachment>) -> bool
    ensures { result ≡ invalid_stencil t }
{
    t.is_some_and(|d| mask::test(d.view.aspects, 2) & mask::test(d.stencil_ops, DISCARD))
}

// Whether depth or stencil records a clear.
pub(crate) fn clears_depth(t: Option<DepthStencilAttachment>) -> bool
    ensures { result ≡ clears_depth t }
{
    t.is_some_and(|d| mask::test(d.depth_ops, CLEAR) | mask::test(d.stencil_ops, CLEAR))
}

fn clear_both(depth: bool, stencil: bool, d: DepthStencilAttachment) -> Command
    ensures { result ≡ get_or (clear_both depth stencil d) 0 no_command }
{
    if depth {
        if stencil {
            Command::ClearDepthAndStencil(d.clear_depth, d.clear_stencil)
        } else {
            Command::ClearDepth(d.clear_depth)
        }
    } else if stencil {
        Command::ClearStencil(d.clear_stencil)
    } else {
        Command::PopDebugGroup
    }
}

// The clear of depth and stencil.
pub(crate) fn clear_depth(t: Option<DepthStencilAttachment>) -> Command
    ensures { result ≡ clear_depth_command t }
{
    t.map_or(Command::PopDebugGroup, |d| {
        clear_both(
            mask::test(d.depth_ops, CLEAR),
            mask::test(d.stencil_ops, CLEAR),
            d,
        )
    })
}
