// Straight functions: lets and calls, over a lent list or beside three more runs. The contracts cite
// specs/Moved.antt and Planned.antt.
ghost use Rattle.std.specs.Prelude.{◌<◌, ◌≡◌, get_or, length, set};
ghost use Rattle.walk_forms.specs.Filled.{rec_of};
ghost use Rattle.walk_forms.specs.Moved.{number_in, place_or_first, least_of, Puts, first_if, FirstBeside};
ghost use Rattle.walk_forms.specs.Planned.{planned_beside};

use crate::fills::Rec;
use crate::plans::{Answer, numbers_past};

// Puts c in front, and hands out what stood there.
pub fn swap_first(list: &mut [Rec], c: u32) -> u32
    requires { 0 < length list.old }
    ensures { (result ≡ number_in list.old 0) × (list.new ≡ set list.old 0 (rec_of c)) }
{
    let r = list[0];
    list[0] = Rec { c };
    r.c
}

// The number at a place, or 0; the list is only read.
pub fn look_at(list: &mut [Rec], k: usize) -> u32
    ensures { (result ≡ number_in list.old k) × (list.new ≡ list.old) }
{
    if k < list.len() { list[k].c } else { 0 }
}

pub fn place_or_first(room: usize, k: usize) -> usize
    ensures { result ≡ place_or_first room k }
{
    if k < room { k } else { 0 }
}

pub fn least_of(a: u32, b: u32) -> u32
    ensures { result ≡ least_of a b }
{
    if a < b { a } else { b }
}

pub fn put(list: &mut [Rec], k: usize, c: u32)
    requires { k < length list.old }
    ensures { list.new ≡ set list.old k (rec_of c) }
{
    list[k] = Rec { c };
}

// Puts c to the place k, or in front if there is no such place, and then d in front. Hands out the
// smallest of what d stands for now, what stands at c's place, and d.
pub fn put_two(list: &mut [Rec], c: u32, d: u32, k: usize) -> u32
    requires { 0 < length list.old }
    ensures { Puts list.old c d (place_or_first (length list.old) k) list.new result }
{
    let at = place_or_first(list.len(), k);
    put(list, at, c);
    let old = swap_first(list, d);
    let other = look_at(list, at);
    let least = least_of(old, other);
    least_of(least, d)
}

pub fn wrote_of(done: Answer) -> usize
    ensures { result ≡ done.wrote }
{
    done.wrote
}

pub fn first_if(n: usize, c: u32) -> u32
    ensures { result ≡ first_if n c }
{
    if 0 < n { c } else { 0 }
}

// As `numbers_past`. Hands out the first number that was written, or 0.
pub fn first_past(
    list: &mut [Rec],
    run: &mut [u8],
    load: &[u8],
    set: &[u32],
    k: usize,
    used: usize,
    count: usize,
) -> u32
    ensures { FirstBeside (planned_beside (length list.old) (length run.old) (length load.now) (get_or set.now k 0) used count) load.now used list.old run.old list.new run.new result }
{
    let done = numbers_past(list, run, load, set, k, used, count);
    let n = wrote_of(done);
    let c = look_at(list, used);
    first_if(n, c)
}
