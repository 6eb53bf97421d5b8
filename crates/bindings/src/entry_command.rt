// One entry's command, with its dynamic offset, and condition 6. The contracts cite specs/Group.antt.
ghost use Rattle.std.specs.Prelude.{false, cond, [], ◌∷◌, ◌≡◌, pos, ◌+ℤ◌, ◌-◌, ◌^◌, ◌<◌};
ghost use Rattle.std.specs.Int.Signed.{lt_z, mag};
ghost use Rattle.records.specs.declared.binding.RawBinding.TheVariants.{Buffer};
ghost use Rattle.slots.specs.Place.{Stands};
ghost use Rattle.bindings.specs.Group.{target_of, buffer_target, entry_commands, offset_over};

use crate::entry::dynamic;
use records::binding::{BindGroupLayoutEntry, BindingType, BufferBindingType, RawBinding};
use records::command::Command;

const UNIFORM_BUFFER: u32 = 0x8a11;

const SHADER_STORAGE_BUFFER: u32 = 0x90d2;

fn target_of(ty: BufferBindingType) -> u32
    ensures { result ≡ target_of ty }
{
    match ty {
        BufferBindingType::Uniform => UNIFORM_BUFFER,
        BufferBindingType::Storage => SHADER_STORAGE_BUFFER,
    }
}

fn buffer_target(ty: BindingType) -> u32
    ensures { result ≡ buffer_target ty }
{
    match ty {
        BindingType::Buffer { ty, .. } => target_of(ty),
        _ => 0,
    }
}

// An offset with a dynamic offset, as the whole number it is.
fn sum_of(offset: i32, more: u32) -> i64
    ensures { result ≡ offset +ℤ pos more }
{
    (offset as i64) + (more as i64)
}

// Where the entry has a dynamic offset, with that.
fn offset_of(has_dynamic_offset: bool, offset: i32, next: u32) -> i64
    ensures { result ≡ cond has_dynamic_offset (offset +ℤ pos next) offset }
{
    if has_dynamic_offset {
        sum_of(offset, next)
    } else {
        offset as i64
    }
}

fn past_i32(offset: i64) -> bool
    ensures { result ≡ lt_z (pos (2 ^ 31 - 1)) offset }
{
    2147483647 < offset
}

// The number, or 0 where it is no `i32`.
fn low(offset: i64) -> i32
    ensures { mag offset < 2 ^ 31 → result ≡ offset }
{
    i32::try_from(offset).unwrap_or(0)
}

// Condition 6, where the next dynamic offset is `next`.
pub(crate) fn offset_over(entry: BindGroupLayoutEntry, raw: RawBinding, next: u32) -> bool
    ensures { result ≡ offset_over entry raw (next ∷ []) }
{
    match raw {
        RawBinding::Buffer { offset, .. } => past_i32(offset_of(dynamic(entry.ty), offset, next)),
        _ => false,
    }
}

fn buffer_command(
    entry: BindGroupLayoutEntry,
    raw: u32,
    offset: i32,
    size: i32,
    next: u32,
) -> Command
    ensures { offset_over entry (Buffer raw offset size) (next ∷ []) ≡ false → result ∷ [] ≡ entry_commands entry (Buffer raw offset size) (next ∷ []) }
{
    let ty = entry.ty;
    let whole = offset_of(dynamic(ty), offset, next);
    Command::BindBuffer {
        target: buffer_target(ty),
        slot: entry.slot,
        buffer: raw,
        offset: low(whole),
        size,
    }
}

// The command, where there is one and the next dynamic offset is `next`.
pub(crate) fn entry_command(entry: BindGroupLayoutEntry, raw: RawBinding, next: u32) -> Command
    ensures { offset_over entry raw (next ∷ []) ≡ false → Stands result 0 (entry_commands entry raw (next ∷ [])) }
{
    match raw {
        RawBinding::Buffer { raw, offset, size } => buffer_command(entry, raw, offset, size, next),
        RawBinding::Texture {
            raw,
            target,
            aspects,
            mip_levels,
        } => Command::BindTexture {
            slot: entry.slot,
            texture: raw,
            target,
            aspects,
            mip_levels,
        },
        RawBinding::Image(binding) => Command::BindImage {
            slot: entry.slot,
            binding,
        },
        RawBinding::Sampler(_) => Command::PopDebugGroup,
    }
}
