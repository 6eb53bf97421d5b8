// Two lent lists, side by side.
ghost use Rattle.std.specs.Prelude.{◌≡◌, ◌-◌, length};
ghost use Rattle.list_walks.specs.Turns.{turns, reading};
ghost use Rattle.walk_forms.specs.Filled.{rec_of};
ghost use Rattle.walk_forms.specs.Steps.{place_a, place_b, turned};

use crate::fills::Rec;
use crate::reads::{look, rest};

pub fn place_in_a(m: u32) -> usize
    ensures { result ≡ place_a m }
{
    m as usize
}

pub fn place_in_b(m: u32) -> usize
    ensures { result ≡ place_b m }
{
    0
}

pub fn turn(m: u32, r: Rec, s: Rec) -> u32
    ensures { result ≡ turned m r s }
{
    r.c
}

pub fn compare(a: &[Rec], b: &[Rec], n: usize, acc: u32, other: Rec) -> u32
    ensures { result ≡ turns (reading place_a place_b turned a.now b.now other) n acc }
{
    let mut m = acc;
    let mut i: usize = 0;
    while i < n {
        let p = place_in_a(m);
        let r = look(a, p, other);
        let q = place_in_b(m);
        let s = look(b, q, other);
        m = turn(m, r, s);
        i += 1;
    }
    m
}

pub fn no_record() -> Rec
    ensures { result ≡ rec_of 0 }
{
    Rec { c: 0 }
}

pub fn turns_of(p: usize, q: usize) -> usize
    ensures { result ≡ p }
{
    p
}

pub fn start(p: usize, q: usize) -> u32
    ensures { result ≡ 0 }
{
    0
}

pub fn verdict(m: u32) -> u32
    ensures { result ≡ m }
{
    m
}

pub fn compare_all(a: &[Rec], x: usize, b: &[Rec], y: usize) -> u32
    ensures { result ≡ turns (reading place_a place_b turned a.now b.now (rec_of 0)) (length a.now - x) 0 }
{
    let p = rest(a, x);
    let q = rest(b, y);
    let other = no_record();
    let n = turns_of(p, q);
    let mut m = start(p, q);
    let mut i: usize = 0;
    while i < n {
        let e = place_in_a(m);
        let r = look(a, e, other);
        let f = place_in_b(m);
        let s = look(b, f, other);
        m = turn(m, r, s);
        i += 1;
    }
    verdict(m)
}
