// One entry of a bind group: whether it records a command and takes a dynamic offset, and conditions
// 3 and 5. The contracts cite specs/Group.antt.
ghost use Rattle.std.specs.Prelude.{false, not, ◌≡◌, pos};
ghost use Rattle.std.specs.Int.Signed.{lt_z};
ghost use Rattle.bindings.specs.Group.{dynamic as dynamic_of, is_buffer, takes_offset, content_out_of_range, entry_out_of_range, content_wrong_kind};
ghost use Rattle.bindings.specs.Sweep.{records_one};

use records::binding::{BindGroupLayoutEntry, BindingType, RawBinding};

pub(crate) fn dynamic(ty: BindingType) -> bool
    ensures { result ≡ dynamic_of ty }
{
    match ty {
        BindingType::Buffer {
            has_dynamic_offset,
            ..
        } => has_dynamic_offset,
        _ => false,
    }
}

fn not_buffer(ty: BindingType) -> bool
    ensures { result ≡ not (is_buffer ty) }
{
    !matches!(ty, BindingType::Buffer { .. })
}

// Whether there is a command.
pub(crate) fn records_one(raw: RawBinding) -> bool
    ensures { result ≡ records_one raw }
{
    !matches!(raw, RawBinding::Sampler(_))
}

pub(crate) fn takes_offset(entry: BindGroupLayoutEntry, raw: RawBinding) -> bool
    ensures { result ≡ takes_offset entry raw }
{
    match raw {
        RawBinding::Buffer { .. } => dynamic(entry.ty),
        _ => false,
    }
}

fn negative(offset: i32) -> bool
    ensures { result ≡ lt_z offset (pos 0) }
{
    offset < 0
}

fn content_out_of_range(slot: u32, raw: RawBinding) -> bool
    ensures { result ≡ content_out_of_range slot raw }
{
    match raw {
        RawBinding::Buffer { offset, .. } => negative(offset),
        RawBinding::Image(_) => false,
        RawBinding::Texture { .. } | RawBinding::Sampler(_) => 16 <= slot,
    }
}

// Condition 3.
pub(crate) fn out_of_range(entry: BindGroupLayoutEntry, raw: RawBinding) -> bool
    ensures { result ≡ entry_out_of_range (record { layout = entry; raw = raw }) }
{
    (1000 <= entry.binding) | ((256 <= entry.slot) | content_out_of_range(entry.slot, raw))
}

// Condition 5.
pub(crate) fn wrong_kind(entry: BindGroupLayoutEntry, raw: RawBinding) -> bool
    ensures { result ≡ content_wrong_kind entry.ty raw }
{
    match raw {
        RawBinding::Buffer { .. } => not_buffer(entry.ty),
        _ => false,
    }
}
