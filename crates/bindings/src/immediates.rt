// Immediates: the range of a call, the words after it, the descriptors that it sends, a word's
// bytes.
ghost use Rattle.std.specs.Prelude.{◌≡◌, false, cond, ◌≤◌, get_or, take};
ghost use Rattle.bindings.specs.Immediates.{descriptors_of, shares_word, sends as sends_of, filter as filter_of, immediates_out_of_range, immediates_state};

use records::check::counted;
use records::command::ImmediateDesc;
use records::state::ImmediateState;

// Condition 3 of a call that writes `count` words from the byte `offset` on.
pub fn out_of_range(offset: u32, count: usize) -> bool
    ensures { result ≡ immediates_out_of_range offset count }
{
    let first = (offset / 4) as usize;
    (offset % 4 != 0) | (64 < first + count.min(65))
}

// The state after a call that writes `count` words from the byte `offset` on.
pub fn immediates_after(
    words: &[u32],
    count: usize,
    i: ImmediateState,
    offset: u32,
) -> ImmediateState
    ensures { immediates_out_of_range offset count ≡ false → result ≡ immediates_state i offset (take count words.now) }
{
    let mut next = i;
    if out_of_range(offset, count) {
        return next;
    }
    next.sent = true;
    let first = (offset / 4) as usize;
    let n = count.min(words.len());
    next.words[first..first + n].copy_from_slice(&words[..n]);
    next
}

// Whether the words from `start` to before `end` and a descriptor's share one.
fn shares(start: u32, end: u32, d: ImmediateDesc) -> bool
    ensures { result ≡ shares_word start end d }
{
    let first = d.offset / 4;
    let past = first + d.size_bytes / 4;
    (start < end) & (first < past) & (start < past) & (first < end)
}

fn one_if(t: bool) -> usize
    ensures { (result ≡ cond t 1 0) × (result ≤ 1) }
{
    t as usize
}

// The state with only the descriptors that a call sends which writes the words from `start` to
// before `end`.
pub fn picked(i: ImmediateState, start: u32, end: u32) -> ImmediateState
    ensures { (descriptors_of result ≡ filter_of (sends_of i.sent start end) (descriptors_of i)) × (result.count ≤ 192) × (result.words ≡ i.words) × (result.sent ≡ i.sent) }
{
    let sent = i.sent;
    let mut kept = i.descs;
    // `k` by hand: the kept ones stay in the state's array (no heap).
    let mut k: usize = 0;
    let descs = i.descs;
    for d in counted(&descs, i.count) {
        kept[k] = *d;
        let t = shares(start, end, *d) | !sent;
        k = k + one_if(t);
    }
    let mut r = i;
    r.descs = kept;
    r.count = k;
    r
}
