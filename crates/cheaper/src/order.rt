// Orders by number: the digits of the number by factorials say which place goes next. The contracts
// cite specs/Search.antt.
ghost use Rattle.std.specs.Prelude.{ℕ, ◌+◌, ◌-◌, ◌≤◌, ◌<◌, ◌≡◌, ◌++◌, take, replicate};
ghost use Rattle.cheaper.specs.Orders.{given, factorial};
ghost use Rattle.cheaper.specs.Search.{removed, order_at};

use crate::pieces::MAX_PIECES;

const FACTORIALS: [u32; 9] = [1, 1, 2, 6, 24, 120, 720, 5040, 40320];

// How many orders n pieces have.
pub(crate) fn orders_of(n: usize) -> u32
    requires { n ≤ 8 }
    ensures { result ≡ factorial n }
{
    FACTORIALS[n]
}

// The first m elements without that at place j. With `copy_within`, inside one array, a search takes
// 1.4 times as long.
fn remove(left: [u32; MAX_PIECES], m: usize, j: usize) -> [u32; MAX_PIECES]
    requires { (m ≤ 8) × (j < m) }
    ensures { take (m - 1) result ≡ removed j (take m left) }
{
    let mut r = left;
    for k in j + 1..m {
        r[k - 1] = left[k];
    }
    r
}

// Order number i of n pieces; the places past them are 0.
pub(crate) fn order_at(n: usize, i: u32) -> [u32; MAX_PIECES]
    requires { (n ≤ 8) × (i < factorial n) }
    ensures { result ≡ order_at n (given n) i ++ replicate (8 - n) 0 }
{
    let mut out = [0u32; MAX_PIECES];
    let mut left: [u32; MAX_PIECES] = [0, 1, 2, 3, 4, 5, 6, 7];
    let mut rest = i;
    for k in 0..n {
        let m = n - k;
        let block = orders_of(m - 1);
        let j = (rest / block) as usize;
        out[k] = left[j];
        left = remove(left, m, j);
        rest %= block;
    }
    out
}
