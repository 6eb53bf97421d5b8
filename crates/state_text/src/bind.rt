// The rows of the samplers and texture units.
ghost use Rattle.std.specs.Prelude.{◌≡◌};
ghost use Rattle.mask.specs.Mask.{test_bit};
ghost use Rattle.state_text.specs.State.{sampler_fields, unit_there, unit_fields};
ghost use Rattle.state_text.specs.Told.{told_of};

use crate::rows::{at, or_dash, row};
use records::state::{BindState, TextureSlotDesc};
use text::field::{Field, Shown};

pub(crate) fn sampler(b: BindState, i: u32) -> Option<Shown>
    ensures { result ≡ told_of (test_bit b.sampler_set i) 59 (sampler_fields b i) }
{
    let sampler = at(&b.samplers, i, 0);
    let there = mask::test(b.sampler_set, i);
    row(there, 59, [Field::Number(i), Field::Number(sampler)])
}

pub(crate) fn unit(b: BindState, i: u32) -> Option<Shown>
    ensures { result ≡ told_of (unit_there b i) 60 (unit_fields b i) }
{
    let start = TextureSlotDesc {
        tex_target: 0,
        sampler_index: 0,
    };
    let unit = at(&b.texture_slots, i, start);
    let sampled = mask::test(b.sampled, i);
    let sampler = or_dash(sampled, Field::Number(unit.sampler_index));
    let there = unit.tex_target != 0 || sampled;
    let fields = [Field::Number(i), Field::Number(unit.tex_target), sampler];
    row(there, 60, fields)
}
