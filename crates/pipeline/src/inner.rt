// What render and compute pipelines share: `set_pipeline_inner` of gles/command.rs. The contracts
// cite specs/Inner.antt.
ghost use Rattle.std.specs.Prelude.{ℕ, ◌≤◌, ◌≡◌, ◌∷◌, is_some, length};
ghost use Rattle.mask.specs.By.{mask_by};
ghost use Rattle.records.specs.Check.{some?, bad_descriptor};
ghost use Rattle.records.specs.declared.command.Command.TheVariants.{SetProgram};
ghost use Rattle.records.specs.declared.state.BindState.{BindState};
ghost use Rattle.bindings.specs.Units.{sampler_commands};
ghost use Rattle.slots.specs.Place.{Stands};
ghost use Rattle.pipeline.specs.Inner.{map_at, changed_units, inner_bind, inner_immediates, inner_descriptors, inner_too_many, bad_number, inner_out_of_range};
ghost use Rattle.pipeline.specs.Units.{number_in, mapped_unit, mapped_units};

use bindings::units::{number_at, sampler_command};
use mask::mask_where;
use records::check::{bad_descriptor, counted};
use records::command::Command;
use records::limits::{MAX_IMMEDIATES_COMMANDS, MAX_TEXTURE_SLOTS};
use records::pipeline::{PipelineInner, SamplerBind};
use records::state::{BindState, ImmediateState, TextureSlotDesc};
use std::array;

// The sampler number that the pipeline has for unit u.
pub fn map_at(p: &PipelineInner, u: u32) -> Option<u32>
    ensures { result ≡ map_at p.now u }
{
    number_in(&p.sampler_map, u)
}

// The sampler number that a map has for unit u.
fn number_in(map: &[SamplerBind; MAX_TEXTURE_SLOTS], u: u32) -> Option<u32>
    ensures { result ≡ number_in map.now u }
{
    map.get(u as usize)?.sampler_index
}

// The units whose sampler number the pipeline changes.
pub fn changed_units(p: PipelineInner, b: BindState) -> u32
    ensures { result ≡ changed_units p b }
{
    let map = p.sampler_map;
    mask_where(16, |u| number_in(&map, u) != number_at(b, u))
}

// The units that are given a sampler.
fn sampled_units(map: &[SamplerBind; MAX_TEXTURE_SLOTS]) -> u32
    ensures { result ≡ mask_by 16 (λ u. is_some (number_in map.now u)) }
{
    mask_where(16, |u| number_in(map, u).is_some())
}

// The unit with the sampler that the pipeline has for it.
fn mapped_unit(unit: TextureSlotDesc, number: Option<u32>) -> TextureSlotDesc
    ensures { result ≡ mapped_unit unit number }
{
    TextureSlotDesc {
        tex_target: unit.tex_target,
        sampler_index: number.unwrap_or(0),
    }
}

// The units with the samplers that the pipeline has for them.
fn mapped_units(
    map: &[SamplerBind; MAX_TEXTURE_SLOTS],
    old: &[TextureSlotDesc; MAX_TEXTURE_SLOTS],
) -> [TextureSlotDesc; MAX_TEXTURE_SLOTS]
    ensures { result ≡ mapped_units map.now old.now }
{
    array::from_fn(|u| mapped_unit(old[u], number_in(map, u as u32)))
}

// Each unit takes the sampler that the pipeline's map has for it.
pub fn inner_bind(p: PipelineInner, b: BindState) -> BindState
    ensures { result ≡ inner_bind p b }
{
    let map = p.sampler_map;
    let old = b.texture_slots;
    let texture_slots = mapped_units(&map, &old);
    BindState {
        texture_slots,
        sampled: sampled_units(&map),
        ..b
    }
}

// The pipeline's descriptors replace the state's.
pub fn inner_immediates(p: PipelineInner, i: ImmediateState) -> ImmediateState
    ensures { result ≡ inner_immediates p i }
{
    let descs = p.immediates_descs;
    ImmediateState {
        descs,
        count: p.immediates_count,
        sent: false,
        ..i
    }
}

// Condition 2: more than 192 descriptors.
pub fn inner_too_many(p: PipelineInner) -> bool
    ensures { result ≡ inner_too_many p }
{
    MAX_IMMEDIATES_COMMANDS < p.immediates_count
}

// A sampler number of 16 or more.
fn bad_number(s: SamplerBind) -> bool
    ensures { result ≡ bad_number s }
{
    16 <= s.sampler_index.unwrap_or(0)
}

fn bad_numbers(map: &[SamplerBind; MAX_TEXTURE_SLOTS]) -> bool
    ensures { result ≡ some? bad_number map.now }
{
    map.iter().any(|s| bad_number(*s))
}

// A descriptor out of its words.
fn bad_words(p: PipelineInner) -> bool
    ensures { result ≡ some? bad_descriptor (inner_descriptors p) }
{
    if p.immediates_count == 0 {
        return false;
    }
    let descs = p.immediates_descs;
    counted(&descs, p.immediates_count)
        .iter()
        .any(|d| bad_descriptor(*d))
}

// Condition 3: a sampler number of 16 or more, or a descriptor out of its words.
pub fn inner_out_of_range(p: PipelineInner) -> bool
    ensures { result ≡ inner_out_of_range p }
{
    let map = p.sampler_map;
    bad_numbers(&map) | bad_words(p)
}

// How many commands `innerCommands` has, by the units whose sampler number changes.
pub fn inner_count(changed: u32) -> u32
    ensures { ((program : ℕ) (b : BindState) → result ≡ length (SetProgram program ∷ sampler_commands b changed)) × (result ≤ 33) }
{
    1 + mask::count(changed)
}

// Command number k of `innerCommands`, where b is the state after it and `changed` the units whose
// sampler number it changes.
pub fn inner_command_at(program: u32, b: BindState, changed: u32, k: u32) -> Command
    ensures { Stands result k (SetProgram program ∷ sampler_commands b changed) }
{
    if k == 0 {
        Command::SetProgram(program)
    } else {
        sampler_command(b, changed, k - 1)
    }
}
