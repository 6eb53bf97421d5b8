// Samplers by number, and the texture units that take them. The contracts cite specs/Units.antt.
ghost use Rattle.std.specs.Prelude.{◌≡◌, get_or};
ghost use Rattle.slots.specs.Place.{Stands};
ghost use Rattle.bindings.specs.Units.{unit_at, sampler_at, number_at, resolve as resolve_of, takes_one, dirty_units, sampler_commands};

use records::command::Command;
use records::state::{BindState, TextureSlotDesc};

pub(crate) fn unit_at(b: BindState, u: u32) -> TextureSlotDesc
    ensures { result ≡ unit_at b u }
{
    let units = b.texture_slots;
    units.get(u as usize).copied().unwrap_or(TextureSlotDesc {
        tex_target: 0,
        sampler_index: 0,
    })
}

// The sampler under number k.
pub(crate) fn sampler_at(b: BindState, k: u32) -> Option<u32>
    ensures { result ≡ sampler_at b k }
{
    mask::test(b.sampler_set, k).then_some(raw_sampler(b, k))
}

fn raw_sampler(b: BindState, k: u32) -> u32
    ensures { result ≡ get_or b.samplers k 0 }
{
    let samplers = b.samplers;
    samplers.get(k as usize).copied().unwrap_or(0)
}

// The number of the sampler that unit u takes.
pub fn number_at(b: BindState, u: u32) -> Option<u32>
    ensures { result ≡ number_at b u }
{
    mask::test(b.sampled, u).then_some(unit_at(b, u).sampler_index)
}

fn resolve(b: BindState, number: Option<u32>) -> Option<u32>
    ensures { result ≡ resolve_of b number }
{
    number.and_then(|k| sampler_at(b, k))
}

// Command number k of the units of a mask.
pub fn sampler_command(b: BindState, m: u32, k: u32) -> Command
    ensures { Stands result k (sampler_commands b m) }
{
    let u = mask::nth(m, k);
    let number = number_at(b, u);
    let sampler = resolve(b, number);
    Command::BindSampler(u, sampler)
}

fn takes_one(m: u32, number: Option<u32>) -> bool
    ensures { result ≡ takes_one m number }
{
    number.is_some_and(|k| mask::test(m, k))
}

// The units whose texture is named, or whose sampler is.
pub fn dirty_units(b: BindState, textures: u32, samplers: u32) -> u32
    ensures { result ≡ dirty_units b textures samplers }
{
    mask::mask_where(16, |u| {
        mask::test(textures, u) | takes_one(samplers, number_at(b, u))
    })
}
