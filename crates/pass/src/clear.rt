// The clear of one colour place. The contracts cite specs/Render.antt and specs/Places.antt.
ghost use Rattle.std.specs.Prelude.{◌≡◌, ◌∷◌, [], get_or, Some};
ghost use Rattle.records.specs.declared.command.SampleKind.TheVariants as kind;
ghost use Rattle.pass.specs.Render.{is_depth, clear_color, clears_depth_kind};
ghost use Rattle.pass.specs.Places.{is_cleared, clear_command, no_command};

use crate::place::CLEAR;
use numbers::{to_f32, trunc_i32_f64, trunc_u32_f64};
use records::command::{ClearColor, ColorI32, ColorU32, Command, SampleKind};
use records::pass::ColorAttachment;

fn is_depth(k: SampleKind) -> bool
    ensures { result ≡ is_depth k }
{
    k == SampleKind::Depth
}

fn clear_float(n: u32, a: ColorAttachment) -> Command
    ensures { result ∷ [] ≡ clear_color n a kind.Float }
{
    let view = a.view;
    let value = a.clear_value;
    Command::ClearColorF {
        draw_buffer: n,
        color: ClearColor {
            r: to_f32(value.r),
            g: to_f32(value.g),
            b: to_f32(value.b),
            a: to_f32(value.a),
            is_srgb: view.is_srgb,
        },
    }
}

fn clear_uint(n: u32, a: ColorAttachment) -> Command
    ensures { result ∷ [] ≡ clear_color n a kind.Uint }
{
    let value = a.clear_value;
    let color = ColorU32 {
        r: trunc_u32_f64(value.r),
        g: trunc_u32_f64(value.g),
        b: trunc_u32_f64(value.b),
        a: trunc_u32_f64(value.a),
    };
    Command::ClearColorU(n, color)
}

// Not one function with `clear_uint`: the record, the conversion and the variant all differ.
fn clear_sint(n: u32, a: ColorAttachment) -> Command
    ensures { result ∷ [] ≡ clear_color n a kind.Sint }
{
    let value = a.clear_value;
    let color = ColorI32 {
        r: trunc_i32_f64(value.r),
        g: trunc_i32_f64(value.g),
        b: trunc_i32_f64(value.b),
        a: trunc_i32_f64(value.a),
    };
    Command::ClearColorI(n, color)
}

// The clear by the kind k, to draw buffer n; a depth kind has none.
fn clear_kind(n: u32, a: ColorAttachment, k: SampleKind) -> Command
    ensures { result ≡ get_or (clear_color n a k) 0 no_command }
{
    match k {
        SampleKind::Float => clear_float(n, a),
        SampleKind::Uint => clear_uint(n, a),
        SampleKind::Sint => clear_sint(n, a),
        SampleKind::Depth => Command::PopDebugGroup,
    }
}

fn clear_color(n: u32, a: ColorAttachment) -> Command
    ensures { result ≡ clear_command n (Some a) }
{
    let view = a.view;
    let k = view.kind;
    if mask::test(a.ops, CLEAR) {
        clear_kind(n, a, k)
    } else {
        Command::PopDebugGroup
    }
}

// The clear of a place, to draw buffer n.
pub(crate) fn clear_place(n: u32, p: Option<ColorAttachment>) -> Command
    ensures { result ≡ clear_command n p }
{
    p.map_or(Command::PopDebugGroup, |a| clear_color(n, a))
}

// Whether a place records a clear.
pub(crate) fn is_cleared(p: Option<ColorAttachment>) -> bool
    ensures { result ≡ is_cleared p }
{
    p.is_some_and(|a| mask::test(a.ops, CLEAR) & !is_depth(a.view.kind))
}

// Condition 5 of a place: a depth kind cleared as colour.
pub(crate) fn clears_depth_kind(p: Option<ColorAttachment>) -> bool
    ensures { result ≡ clears_depth_kind p }
{
    p.is_some_and(|a| mask::test(a.ops, CLEAR) & is_depth(a.view.kind))
}
