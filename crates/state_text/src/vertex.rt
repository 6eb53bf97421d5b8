// The rows of the vertex state.
ghost use Rattle.std.specs.Prelude.{◌≡◌, true, ltb, get_or};
ghost use Rattle.records.specs.Start.{start_attribute};
ghost use Rattle.state_text.specs.State.{slot_there, slot_fields, attribute_fields, mask_fields, instance_there, instance_fields};
ghost use Rattle.state_text.specs.Told.{told_of};

use crate::rows::{at, or_dash, row};
use records::command::AttributeDesc;
use records::state::{VertexSlot, VertexState};
use text::field::{Field, Shown, Word};
use text::shown::is_integer;

pub(crate) fn slot(v: VertexState, i: u32) -> Option<Shown>
    ensures { result ≡ told_of (slot_there v i) 52 (slot_fields v i) }
{
    let slot = at(&v.buffers, i, VertexSlot::new());
    let described = mask::test(v.described, i);
    let bound = mask::test(v.bound, i);
    let step = or_dash(described, Field::Flag(mask::test(v.by_instance, i)));
    let stride = or_dash(described, Field::Number(slot.stride));
    let raw = or_dash(bound, Field::Number(slot.raw));
    let offset = or_dash(bound, Field::Long(slot.offset));
    let fields = [Field::Number(i), step, stride, raw, offset];
    row(described || bound, 52, fields)
}

pub(crate) fn attribute(v: VertexState, i: u32) -> Option<Shown>
    ensures { result ≡ told_of (ltb i v.attribute_count) 53 (attribute_fields (get_or v.attributes i start_attribute)) }
{
    let a = at(&v.attributes, i, AttributeDesc::new());
    let format = a.format_desc;
    let kind = format.attrib_kind;
    let there = (i as usize) < v.attribute_count;
    let fields = [
        Field::Number(a.location),
        Field::Number(a.offset),
        Field::Number(a.buffer_index),
        Field::Signed(format.element_count),
        Field::Number(format.element_format),
        Field::Flag(is_integer(kind)),
    ];
    row(there, 53, fields)
}

pub(crate) fn masks(v: VertexState) -> Option<Shown>
    ensures { result ≡ told_of true 65 (mask_fields v) }
{
    let fields = [
        Field::Number(v.instance_vbuf_mask),
        Field::Text(Word::DirtyMask),
        Field::Number(v.dirty_vbuf_mask),
    ];
    row(true, 65, fields)
}

pub(crate) fn instance(v: VertexState, i: u32) -> Option<Shown>
    ensures { result ≡ told_of (instance_there v i) 66 (instance_fields v i) }
{
    let number = at(&v.instances, i, 0);
    row(number != 0, 66, [Field::Number(i), Field::Number(number)])
}
