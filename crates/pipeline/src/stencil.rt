// The stencil commands of a pipeline: one where both faces agree, else one each. The contracts cite
// specs/Fixed.antt.
ghost use Rattle.std.specs.Prelude.{◌≤◌, ◌≡◌, ◌&&◌, eqb, length};
ghost use Rattle.records.specs.Same.{same_stencil_ops};
ghost use Rattle.slots.specs.Place.{Stands};
ghost use Rattle.pipeline.specs.Fixed.{stencil_func, stencil_funcs, stencil_op, stencil_ops, stencil_commands, stencil_aspect, stencil_or};
ghost use Rattle.pipeline.specs.Plan.{stencil_both};

use names::gl::{StencilSide, StencilState};
use records::command::Command;
use records::same::{same_stencil_func, same_stencil_ops};

pub const FRONT: u32 = 0x404;

pub const BACK: u32 = 0x405;

pub const FRONT_AND_BACK: u32 = 0x408;

fn stencil_func(face: u32, s: StencilSide) -> Command
    ensures { result ≡ stencil_func face s }
{
    Command::SetStencilFunc {
        face,
        function: s.function,
        reference: s.reference,
        read_mask: s.mask_read,
    }
}

// Functions and operations apart: the test, the command and the list promised differ, so only the
// `if` would be shared.
pub fn stencil_func_count(s: StencilState) -> u32
    ensures { (result ≡ length (stencil_funcs s)) × (result ≤ 2) }
{
    let front = s.front;
    let back = s.back;
    if same_stencil_func(front, back) { 1 } else { 2 }
}

// Command number k of the stencil functions.
pub fn stencil_func_at(s: StencilState, k: u32) -> Command
    ensures { Stands result k (stencil_funcs s) }
{
    let front = s.front;
    let back = s.back;
    if same_stencil_func(front, back) {
        return stencil_func(FRONT_AND_BACK, front);
    }
    if k == 0 {
        stencil_func(FRONT, front)
    } else {
        stencil_func(BACK, back)
    }
}

fn stencil_op(face: u32, s: StencilSide) -> Command
    ensures { result ≡ stencil_op face s }
{
    Command::SetStencilOps {
        face,
        write_mask: s.mask_write,
        ops: s.ops,
    }
}

// What `StencilOp` and `StencilMask` set of a side.
fn same_op(front: StencilSide, back: StencilSide) -> bool
    ensures { result ≡ same_stencil_ops front.ops back.ops && eqb front.mask_write back.mask_write }
{
    let x = front.ops;
    let y = back.ops;
    same_stencil_ops(x, y) & (front.mask_write == back.mask_write)
}

pub(crate) fn stencil_op_count(s: StencilState) -> u32
    ensures { (result ≡ length (stencil_ops s)) × (result ≤ 2) }
{
    let front = s.front;
    let back = s.back;
    if same_op(front, back) { 1 } else { 2 }
}

// Command number k of the stencil operations.
pub(crate) fn stencil_op_at(s: StencilState, k: u32) -> Command
    ensures { Stands result k (stencil_ops s) }
{
    let front = s.front;
    let back = s.back;
    if same_op(front, back) {
        return stencil_op(FRONT_AND_BACK, front);
    }
    if k == 0 {
        stencil_op(FRONT, front)
    } else {
        stencil_op(BACK, back)
    }
}

fn both_count(s: StencilState) -> u32
    ensures { (result ≡ length (stencil_both s)) × (result ≤ 4) }
{
    stencil_func_count(s) + stencil_op_count(s)
}

// The functions, then the operations.
fn both_at(s: StencilState, k: u32) -> Command
    ensures { Stands result k (stencil_both s) }
{
    let n = stencil_func_count(s);
    if k < n {
        stencil_func_at(s, k)
    } else {
        stencil_op_at(s, k - n)
    }
}

pub(crate) fn stencil_count(stencil: Option<StencilState>) -> u32
    ensures { (result ≡ length (stencil_commands stencil)) × (result ≤ 4) }
{
    stencil.map_or(0, both_count)
}

pub(crate) fn stencil_command_at(stencil: Option<StencilState>, k: u32) -> Command
    ensures { Stands result k (stencil_commands stencil) }
{
    match stencil {
        None => Command::ConfigureDepthStencil(0),
        Some(s) => both_at(s, k),
    }
}

pub(crate) fn stencil_aspect(stencil: Option<StencilState>) -> u32
    ensures { (result ≡ stencil_aspect stencil) × (result ≤ 4) }
{
    if stencil.is_some() { 4 } else { 0 }
}

// The pipeline's stencil, or the state's where it has none.
pub(crate) fn stencil_or(old: StencilState, stencil: Option<StencilState>) -> StencilState
    ensures { result ≡ stencil_or old stencil }
{
    stencil.unwrap_or(old)
}
