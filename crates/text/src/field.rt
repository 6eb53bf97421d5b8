// What is shown of a command, or of a place of the state: the place of its name and its fields.
ghost use Rattle.std.specs.Prelude.{◌≡◌, length, take};
ghost use Rattle.text.specs.Shown.{built};

// How many fields a line may have.
pub const MAX_FIELDS: usize = 14;

// A field, by the signs of the printed form.
#[derive(Clone, Copy)]
pub enum Field {
    // u
    Number(u32),
    Long(u64),
    // i
    Signed(i32),
    // b
    Flag(bool),
    // x
    Float(f32),
    // X
    Bits(u32),
    // o
    Optional(Option<u32>),
    // o, of a buffer: the number 0 is none
    Buffer(u32),
    // none
    Absent,
    Text(Word),
}

// A word that is printed as it stands.
#[derive(Clone, Copy)]
pub enum Word {
    DirtyMask,
    State,
}

// The place of the name among the names, and the fields: the first `count` of `items`. Kept, a place by
// its number and an array beside its count: `Shows` of specs/Shown.antt has them so, and there is no heap.
#[derive(Clone, Copy)]
pub struct Shown {
    pub name: usize,
    pub count: usize,
    pub items: [Field; MAX_FIELDS],
}

impl Shown {
    // The first fourteen of these fields. Inlined: the array is made where it is used.
    #[inline(always)]
    pub fn new<const N: usize>(name: usize, fields: [Field; N]) -> Shown
        ensures { result ≡ built name (length (take 14 fields.entry)) fields.entry }
    {
        let count = N.min(MAX_FIELDS);
        let mut items = [Field::Absent; MAX_FIELDS];
        items[..count].copy_from_slice(&fields[..count]);
        Shown { name, count, items }
    }
}
