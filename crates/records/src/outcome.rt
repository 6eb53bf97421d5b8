// What a call answers, and the conditions of document 01's 'Turned away'.
ghost use Rattle.std.specs.Prelude.{◌≡◌};
ghost use Rattle.records.specs.Outcome.{number, none_hold, either as either_of, smallest};

// One enum with `Done`: `smallest` and `step` (specs) name it, and a refused call hands a state
// back too.
#[derive(Clone, Copy, Debug, PartialEq, Eq)]
pub enum Outcome {
    // Carried through.
    Done,
    // 1: wrong phase.
    WrongPhase,
    // 2: more places, slots, attributes, targets, descriptors, groups or entries than the limits.
    TooMany,
    // 3: a number out of range.
    OutOfRange,
    // 4: an object that is absent.
    Absent,
    // 5: a kind that does not fit.
    WrongKind,
    // 6: a sum or product outside its field.
    Overflow,
    // 7: no room in the list, the bytes or the queries.
    NoRoom,
}

// Document 01's number: 0 where the call is carried through, or the refusal's.
pub fn number_of(outcome: Outcome) -> u8
    ensures { result ≡ number outcome }
{
    outcome as u8
}

// Which of the seven conditions hold.
#[derive(Clone, Copy, Debug, PartialEq, Eq)]
pub struct Conditions {
    pub phase: bool,
    pub many: bool,
    pub range: bool,
    pub absent: bool,
    pub kind: bool,
    pub sum: bool,
    pub room: bool,
}

impl Conditions {
    pub fn new() -> Self
        ensures { result ≡ none_hold }
    {
        Conditions {
            phase: false,
            many: false,
            range: false,
            absent: false,
            kind: false,
            sum: false,
            room: false,
        }
    }
}

// The conditions that hold of the one or of the other.
pub fn either(a: Conditions, b: Conditions) -> Conditions
    ensures { result ≡ either_of a b }
{
    Conditions {
        phase: a.phase | b.phase,
        many: a.many | b.many,
        range: a.range | b.range,
        absent: a.absent | b.absent,
        kind: a.kind | b.kind,
        sum: a.sum | b.sum,
        room: a.room | b.room,
    }
}

// The smallest number whose condition holds.
pub fn outcome_of(c: Conditions) -> Outcome
    ensures { result ≡ smallest c }
{
    if c.phase {
        return Outcome::WrongPhase;
    }
    if c.many {
        return Outcome::TooMany;
    }
    if c.range {
        return Outcome::OutOfRange;
    }
    if c.absent {
        return Outcome::Absent;
    }
    if c.kind {
        return Outcome::WrongKind;
    }
    if c.sum {
        return Outcome::Overflow;
    }
    if c.room {
        return Outcome::NoRoom;
    }
    Outcome::Done
}
