// The rows of the pass.
ghost use Rattle.std.specs.Prelude.{◌≡◌, true, [], ◌∷◌, ltb, get_or};
ghost use Rattle.mask.specs.Mask.{test_bit};
ghost use Rattle.records.specs.Start.{start_resolve};
ghost use Rattle.text.specs.declared.field.Field.TheVariants.{Number};
ghost use Rattle.state_text.specs.State.{size_fields, resolve_fields, attachment_of};
ghost use Rattle.state_text.specs.Told.{told_of};

use crate::rows::{at, row};
use records::command::Extent3d;
use records::state::{PassState, ResolveDesc};
use text::field::{Field, Shown};

pub(crate) fn render_size(e: Extent3d) -> Option<Shown>
    ensures { result ≡ told_of true 61 (size_fields e) }
{
    let fields = [
        Field::Number(e.width),
        Field::Number(e.height),
        Field::Number(e.depth_or_array_layers),
    ];
    row(true, 61, fields)
}

pub(crate) fn resolve(p: PassState, i: u32) -> Option<Shown>
    ensures { result ≡ told_of (ltb i p.resolve_count) 62 (resolve_fields (get_or p.resolves i start_resolve)) }
{
    let resolve = at(&p.resolves, i, ResolveDesc::new());
    let there = (i as usize) < p.resolve_count;
    row(there, 62, [Field::Long(36064 + resolve.place as u64)])
}

fn attachment_of(i: u32) -> u32
    ensures { result ≡ attachment_of i }
{
    match i {
        0..=7 => 36064 + i,
        8 => 36096,
        _ => 36128,
    }
}

pub(crate) fn invalidate(set: u32, i: u32) -> Option<Shown>
    ensures { result ≡ told_of (test_bit set i) 63 (Number (attachment_of i) ∷ []) }
{
    row(mask::test(set, i), 63, [Field::Number(attachment_of(i))])
}
