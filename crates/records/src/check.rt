// The check of a handed-in state: which of document 01's conditions hold of it. What lies past a count
// is not looked at.
ghost use Rattle.std.specs.Prelude.{◌≡◌, ◌≤◌, min, take};
ghost use Rattle.std.specs.List.{list_any, enumerate_from};
ghost use Rattle.records.specs.Any.{has_location, sampled_past};
ghost use Rattle.records.specs.Check.{some?, bad_mask, too_many as too_many_of, bad_attribute, bad_descriptor, bad_resolve, bad_masks, over_room, broken_limits};
ghost use Rattle.records.specs.Scan.{scan_start, scan_one, scanned};

use crate::command::{AttributeDesc, ImmediateDesc};
use crate::limits::{
    MAX_BYTES, MAX_COLOR_ATTACHMENTS, MAX_COMMANDS, MAX_IMMEDIATES_COMMANDS, MAX_QUERIES,
    MAX_VERTEX_ATTRIBUTES,
};
use crate::state::{
    BindState, ImmediateState, PassState, Progress, ResolveDesc, State, VertexState,
};

// How many elements the lent runs have. A run that a call is not handed counts as long enough.
#[derive(Clone, Copy, Debug, PartialEq, Eq)]
pub struct Rooms {
    pub commands: usize,
    pub bytes: usize,
    pub queries: usize,
}

// The count, or the array's length where the count is larger.
pub fn within(count: usize, length: usize) -> usize
    ensures { result ≡ min count length }
{
    count.min(length)
}

// The elements that are counted: all, where the count is larger.
pub fn counted<T>(items: &[T], count: usize) -> &[T]
    ensures { result.now ≡ take count items.now }
{
    &items[..count.min(items.len())]
}

fn bad_mask(m: u32) -> bool
    ensures { result ≡ bad_mask m }
{
    65536 <= m
}

pub fn bad_attribute(a: AttributeDesc) -> bool
    ensures { result ≡ bad_attribute a }
{
    (16 <= a.location) | (16 <= a.buffer_index)
}

// What has been found of the attributes gone through: their locations below 16, whether one is out
// of range, whether a location stands twice.
#[derive(Clone, Copy, Debug, PartialEq, Eq)]
pub struct AttributeScan {
    pub seen: u32,
    pub bad: bool,
    pub twice: bool,
}

impl AttributeScan {
    fn new() -> Self
        ensures { result ≡ scan_start }
    {
        AttributeScan {
            seen: 0,
            bad: false,
            twice: false,
        }
    }
}

// One attribute more. `again` says that its location stands among those gone through.
fn scan_attribute(s: AttributeScan, a: AttributeDesc, again: bool) -> AttributeScan
    ensures { result ≡ scan_one s a again }
{
    let low = a.location < 16;
    AttributeScan {
        seen: mask::set_if(s.seen, a.location, low),
        bad: bad_attribute(a) | s.bad,
        twice: again | s.twice,
    }
}

// Whether an attribute has the location.
fn stands_among(attributes: &[AttributeDesc], location: u32) -> bool
    ensures { result ≡ list_any (has_location location) attributes.now }
{
    attributes.iter().any(|a| location == a.location)
}

// What is found of the attributes. The mask has the locations below 16; one that is out of range is
// looked for.
fn scan_listed(attributes: &[AttributeDesc]) -> AttributeScan
    ensures { result ≡ scanned attributes.now }
{
    let mut scan = AttributeScan::new();
    for i in (0..attributes.len()).rev() {
        let a = attributes[i];
        let masked = a.location < 16;
        let again = if masked {
            mask::test(scan.seen, a.location)
        } else {
            stands_among(&attributes[i + 1..], a.location)
        };
        scan = scan_attribute(scan, a, again);
    }
    scan
}

pub fn scan_attributes(
    attributes: [AttributeDesc; MAX_VERTEX_ATTRIBUTES],
    count: usize,
) -> AttributeScan
    ensures { result ≡ scanned (take count attributes) }
{
    scan_listed(counted(&attributes, count))
}

// The attributes of the state. An array is taken into a local, and only where something is counted:
// the copy costs more than the test (docs/DECISIONS.md, D76).
fn scan_vertex(vertex: VertexState) -> AttributeScan
    ensures { result ≡ scanned (take vertex.attribute_count vertex.attributes) }
{
    if vertex.attribute_count == 0 {
        return AttributeScan::new();
    }
    let attributes = vertex.attributes;
    scan_attributes(attributes, vertex.attribute_count)
}

pub fn bad_descriptor(d: ImmediateDesc) -> bool
    ensures { result ≡ bad_descriptor d }
{
    let end = (d.offset as u64) + (d.size_bytes as u64);
    (d.offset % 4 != 0) | ((d.size_bytes % 4 != 0) | (256 < end))
}

fn any_bad(descs: &[ImmediateDesc]) -> bool
    ensures { result ≡ list_any bad_descriptor descs.now }
{
    descs.iter().any(|d| bad_descriptor(*d))
}

pub fn bad_descriptors(descs: [ImmediateDesc; MAX_IMMEDIATES_COMMANDS], count: usize) -> bool
    ensures { result ≡ some? bad_descriptor (take count descs) }
{
    any_bad(counted(&descs, count))
}

// Of up to eight descriptors. Eight places, not a slice of those counted: the compiler counts them out,
// and copies no array (measured: docs/BENCHMARKS.md, "What was taken out").
fn bad_few(immediates: ImmediateState) -> bool
    ensures { immediates.count ≤ 8 → result ≡ some? bad_descriptor (take immediates.count immediates.descs) }
{
    let mut bad = false;
    for i in (0..8).rev() {
        let d = immediates.descs[i];
        bad = ((i < immediates.count) & bad_descriptor(d)) | bad;
    }
    bad
}

fn bad_immediates(immediates: ImmediateState) -> bool
    ensures { result ≡ some? bad_descriptor (take immediates.count immediates.descs) }
{
    if immediates.count == 0 {
        return false;
    }
    if immediates.count <= 8 {
        return bad_few(immediates);
    }
    let descs = immediates.descs;
    bad_descriptors(descs, immediates.count)
}

fn bad_resolve(r: ResolveDesc) -> bool
    ensures { result ≡ bad_resolve r }
{
    8 <= r.place
}

fn bad_resolves(resolves: &[ResolveDesc]) -> bool
    ensures { result ≡ list_any bad_resolve resolves.now }
{
    resolves.iter().any(|r| bad_resolve(*r))
}

fn bad_pass(pass: PassState) -> bool
    ensures { result ≡ some? bad_resolve (take pass.resolve_count pass.resolves) }
{
    if pass.resolve_count == 0 {
        return false;
    }
    let resolves = pass.resolves;
    bad_resolves(counted(&resolves, pass.resolve_count))
}

fn bad_units(bind: BindState) -> bool
    ensures { result ≡ list_any (sampled_past bind.sampled) (enumerate_from 0 bind.texture_slots) }
{
    bind.texture_slots.iter().enumerate().any(|(i, t)| mask::test(bind.sampled, i as u32)
        & (16 <= t.sampler_index))
}

fn too_many(state: State) -> bool
    ensures { result ≡ too_many_of state }
{
    (MAX_VERTEX_ATTRIBUTES < state.vertex.attribute_count)
        | ((MAX_COLOR_ATTACHMENTS < state.fixed.color_target_count)
            | ((MAX_COLOR_ATTACHMENTS < state.pass.resolve_count)
                | (MAX_IMMEDIATES_COMMANDS < state.immediates.count)))
}

fn bad_masks(state: State) -> bool
    ensures { result ≡ bad_masks state }
{
    bad_mask(state.vertex.described)
        | (bad_mask(state.vertex.bound)
            | (bad_mask(state.vertex.by_instance)
                | (bad_mask(state.vertex.instance_vbuf_mask)
                    | (bad_mask(state.vertex.dirty_vbuf_mask)
                        | (bad_mask(state.bind.sampler_set)
                            | (bad_mask(state.bind.sampled)
                                | (1024 <= state.pass.invalidate_attachments)))))))
}

pub fn over_room(p: Progress, r: Rooms) -> bool
    ensures { result ≡ over_room p r }
{
    (MAX_COMMANDS < p.commands)
        | ((MAX_BYTES < p.bytes)
            | ((MAX_QUERIES < p.queries)
                | ((r.commands < p.commands) | ((r.bytes < p.bytes) | (r.queries < p.queries)))))
}

// Which limits a state breaks, the room aside: conditions 2, 3 and 5.
#[derive(Clone, Copy, Debug, PartialEq, Eq)]
pub struct Broken {
    pub many: bool,
    pub range: bool,
    pub kind: bool,
}

// Which limits a handed-in state breaks.
pub fn broken_limits(state: State) -> Broken
    ensures { result ≡ broken_limits state }
{
    let vertex = state.vertex;
    let bind = state.bind;
    let pass = state.pass;
    let immediates = state.immediates;
    let scan = scan_vertex(vertex);
    Broken {
        many: too_many(state),
        range: scan.bad
            | (bad_units(bind)
                | (bad_immediates(immediates) | (bad_pass(pass) | bad_masks(state)))),
        kind: scan.twice,
    }
}
