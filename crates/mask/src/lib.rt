// A u32 as a set of places: bit i says whether place i is in it. No mask has a place of 32 or
// more. The contracts cite specs/Mask.antt; specs/Laws.antt has the laws of these definitions.
#![tactic(auto)]

ghost use Rattle.std.specs.Prelude.{ℕ, Bool, ◌^◌, ◌≤◌, ◌<◌, ◌≡◌, length, get_or};
ghost use Rattle.std.specs.Int.Bits.{bit_and, bit_or};
ghost use Rattle.std.specs.Int.Count.{ones};
ghost use Rattle.mask.specs.By.{mask_by};
ghost use Rattle.mask.specs.Mask.{test_bit, bit_at, set_bit, set_bit_if, clear_bit, without as without_of, lowest as lowest_of, rest as rest_of, places};
ghost use Rattle.std.specs.Iterator.{YieldsFirst, item_count};
ghost use Rattle.mask.specs.Visit.{places_left};

// The mask whose only place is i.
pub(crate) fn bit(i: u32) -> u32
    ensures { result ≡ bit_at i }
{
    if i < 32 { 1 << i } else { 0 }
}

pub fn test(m: u32, i: u32) -> bool
    ensures { result ≡ test_bit m i }
{
    m & bit(i) != 0
}

pub fn set(m: u32, i: u32) -> u32
    ensures { result ≡ set_bit m i }
{
    m | bit(i)
}

pub fn set_if(m: u32, i: u32, b: bool) -> u32
    ensures { result ≡ set_bit_if b m i }
{
    if b { set(m, i) } else { m }
}

pub fn clear(m: u32, i: u32) -> u32
    ensures { result ≡ clear_bit m i }
{
    m & !bit(i)
}

// The places below n where f says so.
pub fn mask_where<F: Fn(u32) -> bool>(n: u32, f: F) -> u32
    requires fits { n ≤ 32 }
    requires calls { (i : ℕ) → i < n → F.pre f i }
    ensures below { result < 2 ^ n }
    ensures places { (i : ℕ) → i < n → F.post f i (test_bit result i) }
    ensures made { (g : ℕ → Bool) → ((i : ℕ) (b : Bool) → i < n → F.post f i b → b ≡ g i) → result ≡ mask_by n g }
{
    let mut m: u32 = 0;
    for i in 0..n {
        m = set_if(m, i, f(i));
    }
    m
}

// The places of a that are not in b.
pub fn without(a: u32, b: u32) -> u32
    ensures { result ≡ without_of a b }
{
    a & !b
}

// How many places there are.
pub fn count(m: u32) -> u32
    ensures { result ≡ ones m }
{
    m.count_ones()
}

// The lowest place; 32 where there is none.
pub fn lowest(m: u32) -> u32
    ensures { result ≡ lowest_of m }
{
    m.trailing_zeros()
}

// The mask without its lowest place.
pub fn rest(m: u32) -> u32
    ensures { result ≡ rest_of m }
{
    if m == 0 { 0 } else { m & (m - 1) }
}

// The place number k, from 0, ascending; 32 where there are no more than k places.
pub fn nth(m: u32, k: u32) -> u32
    ensures { result ≡ get_or (places m) k 32 }
{
    if 32 <= k {
        return 32;
    }
    let mut left = m;
    for _ in 0..k {
        left = rest(left);
    }
    lowest(left)
}

// The places of a mask that are still to come, ascending.
#[derive(Clone, Copy, Debug, PartialEq, Eq)]
pub struct Places {
    left: u32,
}

impl Iterator for Places {
    type Item = u32;

    ghost next_gives = { YieldsFirst places_left };

    ghost remaining = { item_count places_left };

    #[tactic(auto, using(crate::specs::Laws::first_place))]
    fn next(&mut self) -> Option<u32> {
        if self.left == 0 {
            return None;
        }
        let place = lowest(self.left);
        self.left = rest(self.left);
        Some(place)
    }
}

pub fn visit(m: u32) -> Places
    ensures places { places_left result ≡ places m }
    ensures count { length (places_left result) ≡ ones m }
{
    Places { left: m }
}
