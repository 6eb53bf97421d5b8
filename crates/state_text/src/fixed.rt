// The rows of the fixed state.
ghost use Rattle.std.specs.Prelude.{◌≡◌, true, ltb, get_or};
ghost use Rattle.records.specs.Start.{start_target};
ghost use Rattle.state_text.specs.State.{primitive_fields, target_fields, stencil_fields, bias_fields};
ghost use Rattle.state_text.specs.Told.{told_of};

use crate::rows::{at, row};
use names::gl::{PrimitiveState, StencilSide};
use records::command::{ColorTargetDesc, DepthBiasState};
use records::state::FixedState;
use text::field::{Field, Shown};

pub(crate) fn primitive(p: PrimitiveState) -> Option<Shown>
    ensures { result ≡ told_of true 50 (primitive_fields p) }
{
    let fields = [
        Field::Number(p.front_face),
        Field::Number(p.cull_face),
        Field::Flag(p.unclipped_depth),
        Field::Number(p.polygon_mode),
    ];
    row(true, 50, fields)
}

pub(crate) fn color_target(f: FixedState, i: u32) -> Option<Shown>
    ensures { result ≡ told_of (ltb i f.color_target_count) 54 (target_fields (get_or f.color_targets i start_target)) }
{
    let there = (i as usize) < f.color_target_count;
    let t = at(&f.color_targets, i, ColorTargetDesc::new());
    let mask = Field::Number(t.mask);
    let blend = t.blend;
    let Some(b) = blend else {
        return row(there, 54, [mask, Field::Absent]);
    };
    let fields = [
        mask,
        Field::Number(b.alpha.src),
        Field::Number(b.alpha.dst),
        Field::Number(b.alpha.equation),
        Field::Number(b.color.src),
        Field::Number(b.color.dst),
        Field::Number(b.color.equation),
    ];
    row(there, 54, fields)
}

pub(crate) fn stencil(name: usize, s: StencilSide) -> Option<Shown>
    ensures { result ≡ told_of true name (stencil_fields s) }
{
    let fields = [
        Field::Number(s.function),
        Field::Number(s.mask_read),
        Field::Number(s.mask_write),
        Field::Number(s.reference),
        Field::Number(s.ops.pass),
        Field::Number(s.ops.fail),
        Field::Number(s.ops.depth_fail),
    ];
    row(true, name, fields)
}

pub(crate) fn bias(b: DepthBiasState) -> Option<Shown>
    ensures { result ≡ told_of true 57 (bias_fields b) }
{
    let fields = [
        Field::Signed(b.constant),
        Field::Bits(b.slope_scale),
        Field::Bits(b.clamp),
    ];
    row(true, 57, fields)
}
