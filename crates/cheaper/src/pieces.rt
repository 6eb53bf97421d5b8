// Pieces, the price between two of them, and the floor. The contracts cite specs/Prices.antt and
// specs/Board.antt.
ghost use Rattle.std.specs.Prelude.{ℕ, ◌≤◌, ◌<◌, ◌-◌, ◌/◌, ◌%◌, ◌≡◌, length, map, get_or};
ghost use Rattle.cheaper.specs.Prices.{sum_to, differs, between, among, distinct};
ghost use Rattle.cheaper.specs.Board.{thing_of, value_in, things};

pub const MAX_PIECES: usize = 8;
// A pipeline, sixteen slot buffers and an index buffer.
const THINGS: usize = 18;

// What a piece is drawn with, each by its number.
#[derive(Clone, Copy)]
pub struct Piece {
    pub pipeline: u32,
    pub slots: [u32; 16],
    pub index: u32,
}

// Thing t of a piece: the pipeline, the slots in order, the index buffer.
pub(crate) fn thing(p: &Piece, t: usize) -> u32
    ensures { result ≡ thing_of p.now t }
{
    if t == 0 {
        p.pipeline
    } else if t <= 16 {
        p.slots[t - 1]
    } else {
        p.index
    }
}

// In how many things two pieces differ.
fn differing(a: &Piece, b: &Piece) -> u32
    ensures { (result ≡ sum_to 18 (λ t. differs (thing_of a.now t) (thing_of b.now t))) × (result ≤ 18) }
{
    let mut sum: u32 = 0;
    for t in 0..THINGS {
        sum += u32::from(thing(a, t) != thing(b, t));
    }
    sum
}

// The prices between all pieces: that between a and b stands at 8 a + b.
pub(crate) fn table(pieces: &[Piece; MAX_PIECES]) -> [u32; 64]
    ensures { (k : ℕ) → k < 64 → (get_or result k 0 ≡ between (value_in pieces.now) (k / 8) (k % 8)) × (get_or result k 0 ≤ 18) }
{
    let mut r = [0u32; 64];
    for k in 0..64 {
        r[k] = differing(&pieces[k / 8], &pieces[k % 8]);
    }
    r
}

// Whether x is thing t of one of the pieces.
fn is_thing(pieces: &[Piece], t: usize, x: u32) -> bool
    ensures { result ≡ among x (things t pieces.now) }
{
    for p in pieces {
        if x == thing(p, t) {
            return true;
        }
    }
    false
}

// How many values thing t has: a piece counts where none after it has the same.
fn distinct_of(pieces: &[Piece], t: usize) -> u32
    requires { length pieces.now ≤ 8 }
    ensures { (result ≡ distinct (things t pieces.now)) × (result ≤ 8) }
{
    let mut count: u32 = 0;
    for (i, p) in pieces.iter().enumerate() {
        count += u32::from(!is_thing(&pieces[i + 1..], t, thing(p, t)));
    }
    count
}

// The floor of so many pieces.
pub(crate) fn floor_of(pieces: &[Piece]) -> u32
    requires { length pieces.now ≤ 8 }
    ensures { result ≡ sum_to 18 (λ t. distinct (things t pieces.now) - 1) }
{
    let mut sum: u32 = 0;
    for t in 0..THINGS {
        sum += distinct_of(pieces, t).saturating_sub(1);
    }
    sum
}
