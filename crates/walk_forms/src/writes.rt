// A lent list that is written.
ghost use Rattle.std.specs.Prelude.{◌≡◌, ◌≤◌, ◌<◌, ◌+◌, ◌++◌, length, take, drop, set};
ghost use Rattle.std.proofs.Math.Seq.{paste};
ghost use Rattle.list_walks.specs.Map.{map_at};
ghost use Rattle.list_walks.specs.Sift.{sifted, over};
ghost use Rattle.list_walks.specs.Back.{fold_back, map_back};
ghost use Rattle.list_walks.specs.Fold.{fold_at};
ghost use Rattle.list_walks.specs.On.{map_on};
ghost use Rattle.walk_forms.specs.Filled.{rec_of};
ghost use Rattle.walk_forms.specs.Steps.{newest, moved, kept, changed};

use crate::fills::Rec;
use crate::folds::step;

pub fn replace(list: &mut [Rec], at: usize, c: u32)
    requires { at < length list.old }
    ensures { list.new ≡ set list.old at (rec_of c) }
{
    list[at] = Rec { c };
}

pub fn set_first(list: &mut [Rec], n: usize, a: u32) -> u32
    requires { n < length list.old }
    ensures { (list.new ≡ set list.old n (rec_of a)) × (result ≡ a) }
{
    list[n] = Rec { c: a };
    a
}

pub fn set_second(list: &mut [Rec], n: usize, b: u32) -> usize
    requires { n < length list.old }
    ensures { (list.new ≡ set list.old n (rec_of b)) × (result ≡ n) }
{
    list[n] = Rec { c: b };
    n
}

pub fn both(list: &mut [Rec], n: usize, a: u32, b: u32) -> usize
    requires { n < length list.old }
    ensures { (list.new ≡ set (set list.old n (rec_of a)) n (rec_of b)) × (result ≡ n) }
{
    set_first(list, n, a);
    set_second(list, n, b)
}

pub fn move_by(shift: u32, i: usize, r: Rec) -> Rec
    ensures { result ≡ moved shift i r }
{
    Rec { c: shift }
}

pub fn copy_moved(src: &[Rec], n: usize, dst: &mut [Rec], at: usize, shift: u32)
    requires { (n ≤ length src.now) × (at + n ≤ length dst.old) }
    ensures { dst.new ≡ paste dst.old at (map_at (moved shift) 0 src.now) n }
{
    let mut i: usize = 0;
    while i < n {
        let r = src[i];
        dst[at + i] = move_by(shift, i, r);
        i += 1;
    }
}

pub fn keeps(r: Rec) -> bool
    ensures { result ≡ kept r }
{
    r.c < 5
}

pub fn retain(list: &mut [Rec], n: usize) -> usize
    requires { n ≤ length list.old }
    ensures { (result ≡ length (sifted kept (take n list.old))) × (list.new ≡ over (sifted kept (take n list.old)) list.old) }
{
    let mut i: usize = 0;
    let mut j: usize = 0;
    while i < n {
        let r = list[i];
        let k = keeps(r);
        i += 1;
        if k {
            list[j] = r;
            j += 1;
        }
    }
    j
}

pub fn change(a: u32, i: usize, r: Rec) -> Rec
    ensures { result ≡ changed a i r }
{
    Rec { c: a }
}

pub fn rewrite_back(list: &mut [Rec], n: usize, acc: u32) -> u32
    requires { n ≤ length list.old }
    ensures { (result ≡ fold_back newest acc 0 (take n list.old)) × (list.new ≡ map_back changed newest acc 0 (take n list.old) ++ drop n list.old) }
{
    let mut a = acc;
    let mut i = n;
    while 0 < i {
        i -= 1;
        let r = list[i];
        let c = change(a, i, r);
        a = step(a, i, r);
        list[i] = c;
    }
    a
}

pub fn rewrite_on(list: &mut [Rec], n: usize, acc: u32) -> u32
    requires { n ≤ length list.old }
    ensures { (result ≡ fold_at newest acc 0 (take n list.old)) × (list.new ≡ over (map_on changed newest acc 0 (take n list.old)) list.old) }
{
    let mut a = acc;
    let mut i: usize = 0;
    while i < n {
        let r = list[i];
        let c = change(a, i, r);
        a = step(a, i, r);
        list[i] = c;
        i += 1;
    }
    a
}
