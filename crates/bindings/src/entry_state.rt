// What one entry leaves: the state, and the units and samplers that are named. The contracts cite
// specs/Group.antt and Sweep.antt.
ghost use Rattle.std.specs.Prelude.{◌≡◌};
ghost use Rattle.bindings.specs.Group.{entry_state, is_texture, is_sampler};
ghost use Rattle.bindings.specs.Sweep.{texture_state, sampler_state, named_after};

use records::binding::{BindGroupLayoutEntry, RawBinding};
use records::state::{BindState, TextureSlotDesc};

fn texture_state(b: BindState, slot: u32, target: u32) -> BindState
    ensures { result ≡ texture_state b slot target }
{
    let mut next = b;
    if slot < 16 {
        let at = slot as usize;
        let units = b.texture_slots;
        let unit = units[at];
        let named = TextureSlotDesc {
            tex_target: target,
            sampler_index: unit.sampler_index,
        };
        next.texture_slots[at] = named;
    }
    next
}

fn sampler_state(b: BindState, slot: u32, k: u32) -> BindState
    ensures { result ≡ sampler_state b slot k }
{
    let mut next = b;
    next.sampler_set = mask::set(b.sampler_set, slot);
    if slot < 16 {
        let at = slot as usize;
        next.samplers[at] = k;
    }
    next
}

pub(crate) fn entry_state(entry: BindGroupLayoutEntry, raw: RawBinding, b: BindState) -> BindState
    ensures { result ≡ entry_state entry raw b }
{
    match raw {
        RawBinding::Texture { target, .. } => texture_state(b, entry.slot, target),
        RawBinding::Sampler(k) => sampler_state(b, entry.slot, k),
        _ => b,
    }
}

// The units whose texture is named.
pub(crate) fn textures_after(entry: BindGroupLayoutEntry, raw: RawBinding, m: u32) -> u32
    ensures { result ≡ named_after is_texture entry raw m }
{
    match raw {
        RawBinding::Texture { .. } => mask::set_if(m, entry.slot, entry.slot < 16),
        _ => m,
    }
}

// The samplers that are named.
pub(crate) fn samplers_after(entry: BindGroupLayoutEntry, raw: RawBinding, m: u32) -> u32
    ensures { result ≡ named_after is_sampler entry raw m }
{
    match raw {
        RawBinding::Sampler(_) => mask::set_if(m, entry.slot, entry.slot < 16),
        _ => m,
    }
}
