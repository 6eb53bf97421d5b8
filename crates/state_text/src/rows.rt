// What is shown of a place of the state, and the rows of one field and of the draws. The first
// argument of a builder is the place of the row's name, 49 for the first row of specs/State.antt.
ghost use Rattle.std.specs.Prelude.{◌≡◌, true, [], ◌∷◌, get_or};
ghost use Rattle.text.specs.declared.field.Field.TheVariants.{Number, Flag, Optional};
ghost use Rattle.state_text.specs.State.{or_dash, is_uint32, index_fields};
ghost use Rattle.state_text.specs.Told.{told_of};

use records::state::{DrawState, IndexFormat};
use text::field::{Field, Shown};

// What is shown of a place, where it is there.
#[inline(always)]
pub(crate) fn row<const N: usize>(there: bool, name: usize, fields: [Field; N]) -> Option<Shown>
    ensures { result ≡ told_of there name fields.entry }
{
    if there {
        return Some(Shown::new(name, fields));
    }
    None
}

// Element i, or what stands for those past the end. Inlined: a part of the state that is lent to a function
// of its own is copied for it.
#[inline(always)]
pub(crate) fn at<T: Copy>(items: &[T], i: u32, start: T) -> T
    ensures { result ≡ get_or items.now i start }
{
    items.get(i as usize).copied().unwrap_or(start)
}

pub(crate) fn or_dash(there: bool, field: Field) -> Field
    ensures { result ≡ or_dash there field }
{
    if there { field } else { Field::Absent }
}

fn is_uint32(format: IndexFormat) -> bool
    ensures { result ≡ is_uint32 format }
{
    match format {
        IndexFormat::Uint16 => false,
        IndexFormat::Uint32 => true,
    }
}

// A row of one number, of one flag, and of one number that may be missing.
pub(crate) fn number(name: usize, n: u32) -> Option<Shown>
    ensures { result ≡ told_of true name (Number n ∷ []) }
{
    row(true, name, [Field::Number(n)])
}

pub(crate) fn flag(name: usize, b: bool) -> Option<Shown>
    ensures { result ≡ told_of true name (Flag b ∷ []) }
{
    row(true, name, [Field::Flag(b)])
}

pub(crate) fn optional(name: usize, o: Option<u32>) -> Option<Shown>
    ensures { result ≡ told_of true name (Optional o ∷ []) }
{
    row(true, name, [Field::Optional(o)])
}

pub(crate) fn index(d: DrawState) -> Option<Shown>
    ensures { result ≡ told_of true 51 (index_fields d) }
{
    let format = d.index_format;
    let fields = [Field::Flag(is_uint32(format)), Field::Long(d.index_offset)];
    row(true, 51, fields)
}
