// The phases that a call needs, and its conditions.
ghost use Rattle.std.specs.Prelude.{◌≡◌, not, false as no};
ghost use Rattle.calls.specs.Meaning.{in_closed, in_open, in_render, in_compute, in_pass, not_closed};

use records::outcome::Conditions;
use records::state::Phase;

pub fn in_closed(phase: Phase) -> bool
    ensures { result ≡ in_closed phase }
{
    matches!(phase, Phase::Closed)
}

pub fn in_open(phase: Phase) -> bool
    ensures { result ≡ in_open phase }
{
    matches!(phase, Phase::Open)
}

pub fn in_render(phase: Phase) -> bool
    ensures { result ≡ in_render phase }
{
    matches!(phase, Phase::Render)
}

pub fn in_compute(phase: Phase) -> bool
    ensures { result ≡ in_compute phase }
{
    matches!(phase, Phase::Compute)
}

pub fn in_pass(phase: Phase) -> bool
    ensures { result ≡ in_pass phase }
{
    matches!(phase, Phase::Render | Phase::Compute)
}

pub fn not_closed(phase: Phase) -> bool
    ensures { result ≡ not_closed phase }
{
    !in_closed(phase)
}

// Only the phase is asked for.
pub fn in_phase(allowed: bool) -> Conditions
    ensures { result ≡ record { phase = not allowed; many = no; range = no; absent = no; kind = no; sum = no; room = no } }
{
    Conditions {
        phase: !allowed,
        many: false,
        range: false,
        absent: false,
        kind: false,
        sum: false,
        room: false,
    }
}

// The phase, and an object that is not absent.
pub fn in_phase_with(allowed: bool, absent: bool) -> Conditions
    ensures { result ≡ record { phase = not allowed; many = no; range = no; absent = absent; kind = no; sum = no; room = no } }
{
    Conditions {
        absent,
        ..in_phase(allowed)
    }
}

// The phase, a number past a set or past its words, an end past 32 bits, and a count above its run.
pub fn range_asks(allowed: bool, range: bool, sum: bool, short: bool) -> Conditions
    ensures { result ≡ record { phase = not allowed; many = no; range = range; absent = no; kind = no; sum = sum; room = short } }
{
    Conditions {
        range,
        sum,
        room: short,
        ..in_phase(allowed)
    }
}

// The phase, a number past a set, and a count above its run.
pub fn run_asks(allowed: bool, range: bool, short: bool) -> Conditions
    ensures { result ≡ record { phase = not allowed; many = no; range = range; absent = no; kind = no; sum = no; room = short } }
{
    range_asks(allowed, range, false, short)
}
