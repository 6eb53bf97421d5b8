// Each row is an `f64` by its bits. The program writes, as eight hex digits each: the `f32` that it
// rounds to, the `i32` and the `u32` that it truncates to, that `f32` truncated to an `i32`, the
// `u32` read as an `i32`, that `f32` truncated to a `u32`, and the bits of the `f32` once more, read back from its bits.
#![tactic(auto)]

use numbers::{
    as_i32, as_u32, bits32, of_bits32, of_bits64, to_f32, trunc_i32, trunc_i32_f64, trunc_u32,
    trunc_u32_f64,
};
use std::io;

mod rows;

fn row(rt: &impl Print, b: u64) -> io::Result<()> {
    let x = of_bits64(b);
    let y = to_f32(x);
    let rounded = bits32(y);
    let signed = as_u32(trunc_i32_f64(x));
    let unsigned = trunc_u32_f64(x);
    let narrow = as_u32(trunc_i32(y));
    let read = as_u32(as_i32(unsigned));
    let narrow_unsigned = trunc_u32(y);
    let back = bits32(of_bits32(rounded));
    println!(rt;
        "{rounded:08x} {signed:08x} {unsigned:08x} {narrow:08x} {read:08x} {narrow_unsigned:08x} {back:08x}"
    )
}

fn main(rt: HostRuntime) -> io::Result<()> {
    for b in rows::ROWS {
        row(&rt, b)?;
    }
    Ok(())
}
