// The rows of the immediates.
ghost use Rattle.std.specs.Prelude.{◌≡◌, ltb, get_or};
ghost use Rattle.records.specs.Start.{start_immediate};
ghost use Rattle.state_text.specs.State.{descriptor_fields, word_there, word_fields};
ghost use Rattle.state_text.specs.Told.{told_of};

use crate::rows::{at, row};
use records::command::ImmediateDesc;
use records::state::ImmediateState;
use text::field::{Field, Shown};

pub(crate) fn descriptor(m: ImmediateState, i: u32) -> Option<Shown>
    ensures { result ≡ told_of (ltb i m.count) 68 (descriptor_fields (get_or m.descs i start_immediate)) }
{
    let start = ImmediateDesc {
        location: 0,
        ty: 0,
        offset: 0,
        size_bytes: 0,
    };
    let d = at(&m.descs, i, start);
    let there = (i as usize) < m.count;
    let fields = [
        Field::Number(d.location),
        Field::Number(d.ty),
        Field::Number(d.offset),
        Field::Number(d.size_bytes),
    ];
    row(there, 68, fields)
}

pub(crate) fn word(m: ImmediateState, i: u32) -> Option<Shown>
    ensures { result ≡ told_of (word_there m i) 69 (word_fields m i) }
{
    let word = at(&m.words, i, 0);
    row(word != 0, 69, [Field::Number(i), Field::Number(word)])
}
