// Runs whose elements are three numbers each.
ghost use Rattle.std.specs.Prelude.{◌+◌, ◌*◌, ◌<◌, ◌≤◌, min, ◌≡◌, ltb};

use records::check::within;

// How many whole elements there are in the counted part of a run of `length` numbers.
pub(crate) fn elements(length: usize, count: usize) -> usize
    ensures { (3 * result ≤ min (3 * count) length) × (min (3 * count) length < 3 * result + 3) }
{
    within(count, length / 3)
}

// Condition 7: more elements counted than the run has.
pub(crate) fn over_run(length: usize, count: usize) -> bool
    ensures { result ≡ ltb length (3 * count) }
{
    length / 3 < count
}
