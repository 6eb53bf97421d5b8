// Folds over a lent list.
ghost use Rattle.std.specs.Prelude.{◌≡◌, ◌≤◌, ◌<◌, ◌+◌, ◌^◌, length, min, take};
ghost use Rattle.list_walks.specs.Fold.{fold_at, part};
ghost use Rattle.walk_forms.specs.Steps.{newest, counted};

use crate::fills::Rec;

pub fn step(a: u32, i: usize, r: Rec) -> u32
    ensures { result ≡ newest a i r }
{
    r.c
}

pub fn fold(list: &[Rec], from: usize, to: usize, acc: u32) -> u32
    requires { (from ≤ to) × (to ≤ length list.now) }
    ensures { result ≡ fold_at newest acc from (part list.now from to) }
{
    let mut a = acc;
    let mut i = from;
    while i < to {
        let r = list[i];
        a = step(a, i, r);
        i += 1;
    }
    a
}

pub fn count(a: usize, i: usize, r: Rec) -> usize
    requires { a + 1 < 2 ^ 64 }
    ensures { result ≡ counted a i r }
{
    a + 1
}

pub fn count_between(list: &[Rec], from: usize, to: usize, acc: usize) -> usize
    requires { (from ≤ to) × (to ≤ length list.now) × (acc ≤ from) }
    ensures { result ≡ fold_at counted acc from (part list.now from to) }
{
    let mut a = acc;
    let mut i = from;
    while i < to {
        let r = list[i];
        a = count(a, i, r);
        i += 1;
    }
    a
}

pub fn upto(x: usize, len: usize) -> usize
    ensures { result ≡ min x len }
{
    if x < len { x } else { len }
}

pub fn begin(x: usize, len: usize) -> u32
    ensures { result ≡ 0 }
{
    0
}

pub fn first(list: &[Rec], x: usize) -> u32
    ensures { result ≡ fold_at newest 0 0 (take (min x (length list.now)) list.now) }
{
    let len = list.len();
    let n = upto(x, len);
    let acc = begin(x, len);
    fold(list, 0, n, acc)
}
