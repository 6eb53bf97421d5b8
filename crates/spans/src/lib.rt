// Which slots a draw rebinds, where its first instance is known only to lie between two numbers.
// The contract cites specs/Span.antt.
#![tactic(auto)]

ghost use Rattle.std.specs.Prelude.{◌≡◌};
ghost use Rattle.spans.specs.Span.{SpanOf, SmallestOf, span_number, refusal as refusal_of};
ghost use Rattle.spans.specs.Place.{wakes, always_mask, sometimes_mask};

use calls::judge::{accepted, no_rooms};
use records::check::{broken_limits, over_room};
use records::outcome::{Conditions, Outcome, number_of, outcome_of};
use records::pipeline::PrivateCapabilities;
use records::state::{State, VertexState};
use slots::working;

// The masks, or why there are none: one enum, since `SpanOf` and `span_number` (specs/Span.antt) name
// these three answers.
#[derive(Clone, Copy)]
pub enum Span {
    // Slots rebound for every number of the span, and for at least one.
    Masks(u32, u32),
    // A broken state: 2, 3, 5 or 7.
    Broken(Outcome),
    // 15: a lower number above the upper.
    Reversed,
}

// A slot that is dirty, or steps by instance and moves; described and bound.
fn wakes(v: VertexState, moves: bool, i: u32) -> bool
    ensures { result ≡ wakes v moves i }
{
    ((mask::test(v.dirty_vbuf_mask, i) | (mask::test(v.instance_vbuf_mask, i) & moves))
        & mask::test(v.described, i))
        & mask::test(v.bound, i)
}

// The slots rebound for every number of the span, and for at least one.
// By the working instances at the two ends of the span.
fn masks(v: VertexState, low: u32, high: u32) -> (u32, u32)
    ensures { (result.0 ≡ always_mask v low high) × (result.1 ≡ sometimes_mask v low high) }
{
    let instances = v.instances;
    let always = mask::mask_where(16, |i| {
        let own = instances[i as usize];
        let outside = (own < low) | (high < own);
        wakes(v, outside, i)
    });
    let sometimes = mask::mask_where(16, |i| {
        let own = instances[i as usize];
        let apart = !((low == own) & (high == own));
        wakes(v, apart, i)
    });
    (always, sometimes)
}

// What turns a broken state away; no phase is asked for, and no run is lent.
fn refusal(s: State) -> Outcome
    ensures { result ≡ refusal_of s }
{
    let broken = broken_limits(s);
    outcome_of(Conditions {
        phase: false,
        many: broken.many,
        range: broken.range,
        absent: false,
        kind: broken.kind,
        sum: false,
        room: over_room(s.progress, no_rooms()),
    })
}

// The slots that a draw rebinds whose first instance lies from `lower` to `upper`, both included.
pub fn rebound_span(caps: PrivateCapabilities, s: State, lower: u32, upper: u32) -> Span
    ensures { SpanOf caps s lower upper result × SmallestOf s lower upper (span_number result) }
{
    let o = refusal(s);
    let ok = accepted(o);
    if !ok {
        return Span::Broken(o);
    }
    if upper < lower {
        return Span::Reversed;
    }
    let low = working(caps, lower);
    let high = working(caps, upper);
    let (always, sometimes) = masks(s.vertex, low, high);
    Span::Masks(always, sometimes)
}

// The number of an answer: 0 where there are masks.
pub fn span_number(r: Span) -> u8
    ensures { result ≡ span_number r }
{
    match r {
        Span::Masks(_, _) => 0,
        Span::Broken(o) => number_of(o),
        Span::Reversed => 15,
    }
}
