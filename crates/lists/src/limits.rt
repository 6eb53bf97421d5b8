// The check of a handed-in list: which of document 01's limits it breaks, and how many draws it has.
// The contracts cite specs/Limits.antt.
ghost use Rattle.std.specs.Prelude.{◌≡◌, ◌+◌, ◌^◌, ◌≤◌, ◌<◌, length};
ghost use Rattle.list_walks.specs.Fold.{fold_at, part};
ghost use Rattle.machine.specs.Each.{Each};
ghost use Rattle.lists.specs.Class.{commands_of};
ghost use Rattle.lists.specs.Floats.{SetsF32};
ghost use Rattle.lists.specs.Limits.{keeps as keeps_of, too_many, out_of_range, beyond_run, reversed as reversed_of, bad_target, bad_attachment};
ghost use Rattle.lists.specs.Limits.{query_breaks, marker_breaks, immediate_breaks, breaks, either_breaks, over_counts, handed, broken, refusal_of};
ghost use Rattle.lists.specs.Survey.{looked_at, first_survey, survey_record, survey_of};

use crate::class::{class_of, is_draw};
use records::check::{bad_attribute, bad_descriptor, within};
use records::command::{Command, ImmediateDesc, RangeU32, Record};
use records::limits::{MAX_BYTES, MAX_COMMANDS, MAX_QUERIES};
use records::outcome::{Conditions, Outcome, outcome_of};

// The colour attachments that OpenGL ES names and that no place has: from the first to past the last.
const COLOR_ATTACHMENT8: u32 = 0x8ce8;

const COLOR_ATTACHMENT32: u32 = 0x8d00;

// How much of a list's runs is used: commands, marker bytes and queries.
#[derive(Clone, Copy)]
pub struct Used {
    pub commands: usize,
    pub bytes: usize,
    pub queries: usize,
}

// The limits that are broken, by document 01's numbers.
#[derive(Clone, Copy)]
pub struct Breaks {
    // 2: more places than the limits.
    pub many: bool,
    // 3: a number out of range.
    pub range: bool,
    // 7: a count above its limit or run, or a range beyond its run.
    pub room: bool,
}

// What is known of a list: how much is used of it, which limits it breaks, and its draws.
#[derive(Clone, Copy)]
pub struct Surveyed {
    pub used: Used,
    pub breaks: Breaks,
    pub draws: usize,
}

fn keeps() -> Breaks
    ensures { result ≡ keeps_of }
{
    Breaks {
        many: false,
        range: false,
        room: false,
    }
}

fn too_many(many: bool) -> Breaks
    ensures { result ≡ too_many many }
{
    Breaks { many, ..keeps() }
}

fn out_of_range(range: bool) -> Breaks
    ensures { result ≡ out_of_range range }
{
    Breaks { range, ..keeps() }
}

fn beyond_run(room: bool) -> Breaks
    ensures { result ≡ beyond_run room }
{
    Breaks { room, ..keeps() }
}

fn reversed(r: RangeU32) -> bool
    ensures { result ≡ reversed_of r }
{
    r.end < r.start
}

fn bad_target(place: Option<u32>) -> bool
    ensures { result ≡ bad_target place }
{
    place.is_some_and(|i| 8 <= i)
}

fn bad_attachment(attachment: u32) -> bool
    ensures { result ≡ bad_attachment attachment }
{
    (COLOR_ATTACHMENT8 <= attachment) & (attachment < COLOR_ATTACHMENT32)
}

fn query_breaks(used: Used, range: RangeU32) -> Breaks
    ensures { result ≡ query_breaks used range }
{
    Breaks {
        many: false,
        range: reversed(range),
        room: used.queries < (range.end as usize),
    }
}

fn marker_breaks(used: Used, range: RangeU32) -> Breaks
    ensures { result ≡ marker_breaks used range }
{
    beyond_run(reversed(range) | (used.bytes < (range.end as usize)))
}

fn immediate_breaks(used: Used, d: ImmediateDesc, offset: u32) -> Breaks
    ensures { result ≡ immediate_breaks used d offset }
{
    let end = (offset as u64) + (d.size_bytes as u64);
    Breaks {
        many: false,
        range: bad_descriptor(d),
        room: (used.bytes as u64) < end,
    }
}

// The limits that a command breaks.
pub fn breaks_of(used: Used, command: Command) -> Breaks
    ensures { result ≡ breaks used command }
{
    match command {
        Command::CopyQueryResults { query_range, .. } => query_breaks(used, query_range),
        Command::BindAttachment { attachment, .. } => out_of_range(bad_attachment(attachment)),
        Command::ResolveAttachment { attachment, .. } => out_of_range(bad_attachment(attachment)),
        Command::InvalidateAttachments(set) => out_of_range(1024 <= set),
        Command::SetDrawColorBuffers(count) => too_many(8 < count),
        Command::ClearColorF { draw_buffer, .. } => out_of_range(8 <= draw_buffer),
        Command::ClearColorU(draw_buffer, _) => out_of_range(8 <= draw_buffer),
        Command::ClearColorI(draw_buffer, _) => out_of_range(8 <= draw_buffer),
        Command::SetVertexAttribute { attribute_desc, .. } => {
            out_of_range(bad_attribute(attribute_desc))
        }
        Command::UnsetVertexAttribute(location) => out_of_range(16 <= location),
        Command::SetVertexBuffer { index, .. } => out_of_range(16 <= index),
        Command::SetColorTarget {
            draw_buffer_index,
            ..
        } => out_of_range(bad_target(draw_buffer_index)),
        Command::BindBuffer { slot, .. } => out_of_range(256 <= slot),
        Command::BindSampler(unit, _) => out_of_range(16 <= unit),
        Command::BindTexture { slot, .. } => out_of_range(16 <= slot),
        Command::BindImage { slot, .. } => out_of_range(256 <= slot),
        Command::PushDebugGroup(range) => marker_breaks(used, range),
        Command::SetImmediates { uniform, offset } => immediate_breaks(used, uniform, offset),
        _ => keeps(),
    }
}

// The limits that the one or the other breaks.
fn either(a: Breaks, b: Breaks) -> Breaks
    ensures { result ≡ either_breaks a b }
{
    Breaks {
        many: a.many | b.many,
        range: a.range | b.range,
        room: a.room | b.room,
    }
}

fn over_counts(room: usize, used: Used) -> bool
    ensures { result ≡ over_counts room used }
{
    (MAX_COMMANDS < used.commands)
        | ((MAX_BYTES < used.bytes) | ((MAX_QUERIES < used.queries) | (room < used.commands)))
}

// How many records are looked at: the used ones that are there.
fn looked_at(used: Used, room: usize) -> usize
    ensures { result ≡ looked_at used room }
{
    within(used.commands, room)
}

// What is known before any record.
pub fn first_survey(used: Used, room: usize) -> Surveyed
    ensures { result ≡ first_survey used room }
{
    let breaks = beyond_run(over_counts(room, used));
    Surveyed {
        used,
        breaks,
        draws: 0,
    }
}

// What is known after one more record.
pub fn survey_record(s: Surveyed, i: usize, x: Record) -> Surveyed
    requires { s.draws + 1 < 2 ^ 64 }
    ensures survey { result ≡ survey_record s i x }
    ensures floats { SetsF32 x.command }
{
    let command = x.command;
    let used = s.used;
    let before = s.breaks;
    let here = breaks_of(used, command);
    let breaks = either(before, here);
    let class = class_of(command);
    let draws = if is_draw(class) { s.draws + 1 } else { s.draws };
    Surveyed {
        used,
        breaks,
        draws,
    }
}

// What is known after the records from place `from` up to `to`.
pub fn survey_between(list: &[Record], from: usize, to: usize, acc: Surveyed) -> Surveyed
    requires { (from ≤ to) × (to ≤ length list.now) × (acc.draws ≤ from) }
    ensures survey { result ≡ fold_at survey_record acc from (part list.now from to) }
    ensures floats { Each SetsF32 (commands_of (part list.now from to)) }
{
    let mut a = acc;
    for i in from..to {
        a = survey_record(a, i, list[i]);
    }
    a
}

// The check of a handed-in list, and its draws: those of the used records that are there.
pub fn survey(list: &[Record], used: Used) -> Surveyed
    ensures survey { result ≡ survey_of list.now used }
    ensures floats { Each SetsF32 (handed list.now used).commands }
{
    let room = list.len();
    let n = looked_at(used, room);
    let acc = first_survey(used, room);
    survey_between(list, 0, n, acc)
}

// A limit is broken.
pub fn is_broken(breaks: Breaks) -> bool
    ensures { result ≡ broken breaks }
{
    breaks.many | (breaks.range | breaks.room)
}

// What the list is turned away with: the smallest number whose condition holds, or none.
pub fn refusal_of(breaks: Breaks) -> Outcome
    ensures { result ≡ refusal_of breaks }
{
    outcome_of(Conditions {
        phase: false,
        many: breaks.many,
        range: breaks.range,
        absent: false,
        kind: false,
        sum: false,
        room: breaks.room,
    })
}
