// What the beginnings of both kinds of pass share: their conditions, their answer, and the label's
// bytes. The contracts cite specs/Marked.antt.
ghost use Rattle.std.specs.Prelude.{min, ◌≡◌, cond, not, false as no, ltb, length, get_or};
ghost use Rattle.walks.specs.Fill.{filled};
ghost use Rattle.pass_calls.specs.Marked.{MarkedOf, LabelFits};

use calls::judge::{Counts, byte_rooms, judge, spot_of, taken};
use calls::phase::in_phase;
use records::check::{broken_limits, within};
use records::outcome::{Conditions, Outcome};
use records::state::{PassState, Phase, Progress, State};

// The progress and the pass record after the call, the outcome, where the commands go and how many
// they are, and the same of the bytes.
#[derive(Clone, Copy)]
pub struct Marked {
    pub progress: Progress,
    pub pass: PassState,
    pub outcome: Outcome,
    pub at: usize,
    pub n: usize,
    pub put: usize,
    pub size: usize,
}

// How many bytes a label has: no more than it is lent, none where there is no label.
pub(crate) fn label_size(has_label: bool, count: usize, len: usize) -> usize
    ensures { result ≡ cond has_label (min count len) 0 }
{
    if has_label { within(count, len) } else { 0 }
}

// A count above the label's run, whether there is a label or not.
pub(crate) fn label_short(count: usize, len: usize) -> bool
    ensures { result ≡ ltb len count }
{
    len < count
}

// The phase, too many places, an index past the set, a wrong kind, a label that ends past 32 bits,
// and a count above its run.
pub(crate) fn begin_asks(
    allowed: bool,
    many: bool,
    range: bool,
    kind: bool,
    sum: bool,
    short: bool,
) -> Conditions
    ensures { result ≡ record { phase = not allowed; many = many; range = range; absent = no; kind = kind; sum = sum; room = short } }
{
    Conditions {
        many,
        range,
        kind,
        sum,
        room: short,
        ..in_phase(allowed)
    }
}

// A call that ends in `phase`, appends `n` commands and `size` bytes, and leaves this pass record.
pub(crate) fn plan_mark(
    room: usize,
    bytes_room: usize,
    s: State,
    c: Conditions,
    phase: Phase,
    n: usize,
    size: usize,
    pass: PassState,
) -> Marked
    ensures { MarkedOf room bytes_room s c phase n size pass result }
{
    let p = s.progress;
    let old = s.pass;
    let rooms = byte_rooms(room, bytes_room);
    let more = Counts {
        commands: n,
        bytes: size,
        queries: 0,
    };
    let broken = broken_limits(s);
    let v = judge(rooms, broken, p, c, phase, more);
    let place = spot_of(v.ok, p.commands, n);
    let mark = spot_of(v.ok, p.bytes, size);
    let outcome = v.outcome;
    let progress = v.progress;
    let pass = taken(v.ok, pass, old);
    Marked {
        progress,
        pass,
        outcome,
        at: place.at,
        n: place.n,
        put: mark.at,
        size: mark.n,
    }
}

// The label's first bytes, from the place `at` on.
pub fn copy_label(bytes: &mut [u8], label: &[u8], at: usize, n: usize)
    requires { LabelFits label.now at n (length bytes.old) }
    ensures { bytes.new ≡ filled (λ i. get_or label.now i 0) bytes.old at n }
{
    bytes[at..at + n].copy_from_slice(&label[..n]);
}
