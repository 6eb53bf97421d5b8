// Loops that fill a lent list. The contracts cite specs/Filled.antt.
ghost use Rattle.std.specs.Prelude.{ℕ, ◌+◌, ◌<◌, ◌≤◌, ◌≡◌, get_or, length};
ghost use Rattle.walks.specs.Fill.{filled};
ghost use Rattle.walk_forms.specs.Filled.{rec_of, number_at, NumberFits, read_at, ReadFits, place_in, PlaceFits, picked_at, PickFits};

#[derive(Clone, Copy)]
pub struct Rec {
    pub c: u32,
}

// Where n records go, and the number of the first.
#[derive(Clone, Copy)]
pub struct Batch {
    pub at: usize,
    pub n: usize,
    pub first: u32,
}

// Where n records go, and from which place on their numbers are read.
#[derive(Clone, Copy)]
pub struct Window {
    pub at: usize,
    pub n: usize,
    pub from: usize,
}

pub fn number(b: Batch, i: usize) -> u32
    requires { NumberFits b i }
    ensures { result ≡ number_at b i }
{
    b.first + (i as u32)
}

pub fn fill(list: &mut [Rec], at: usize, n: usize, b: Batch)
    requires { (at + n ≤ length list.old) × ((i : ℕ) → i < n → NumberFits b i) }
    ensures { list.new ≡ filled (λ i. rec_of (number_at b i)) list.old at n }
{
    let mut i: usize = 0;
    while i < n {
        let c = number(b, i);
        list[at + i] = Rec { c };
        i += 1;
    }
}

pub fn read(run: &[u32], w: Window, i: usize) -> u32
    requires { ReadFits run.now w i }
    ensures { result ≡ read_at run.now w i }
{
    run[w.from + i]
}

pub fn fill_from(list: &mut [Rec], run: &[u32], at: usize, n: usize, w: Window)
    requires { (at + n ≤ length list.old) × ((i : ℕ) → i < n → ReadFits run.now w i) }
    ensures { list.new ≡ filled (λ i. rec_of (read_at run.now w i)) list.old at n }
{
    let mut i: usize = 0;
    while i < n {
        let c = read(run, w, i);
        list[at + i] = Rec { c };
        i += 1;
    }
}

pub fn at_of(w: Window) -> usize
    ensures { result ≡ w.at }
{
    w.at
}

pub fn count_of(w: Window) -> usize
    ensures { result ≡ w.n }
{
    w.n
}

pub fn place(w: Window, i: usize) -> usize
    requires { PlaceFits w i }
    ensures { result ≡ place_in w i }
{
    w.from + i
}

pub fn picked(w: Window, i: usize, e: u32) -> u32
    requires { PickFits w i e }
    ensures { result ≡ picked_at w i e }
{
    e + 1
}

pub fn fill_picked(list: &mut [Rec], w: Window, held: [u32; 4])
    requires { (w.at + w.n ≤ length list.old) × ((i : ℕ) → i < w.n → PlaceFits w i × PickFits w i (get_or held (place_in w i) 0)) }
    ensures { list.new ≡ filled (λ i. rec_of (picked_at w i (get_or held (place_in w i) 0))) list.old w.at w.n }
{
    let at = at_of(w);
    let n = count_of(w);
    let mut i: usize = 0;
    while i < n {
        let j = place(w, i);
        let e = held[j];
        let c = picked(w, i, e);
        list[at + i] = Rec { c };
        i += 1;
    }
}
