// Whether two draws fetch alike, by the settings that they find.
ghost use Rattle.std.specs.Prelude.{◌≡◌, ℕ, ◌+◌, eqb, Some, None};
ghost use Rattle.machine.specs.Found.{slot_source, source_of, fetch_at};
ghost use Rattle.boards.specs.Alike.{same_bits, same_color, formats_alike, sources_alike, location_alike, all_below, alike as alike_of};
ghost use Rattle.boards.specs.Settings.{attribute_in, buffer_in, buffer_of, vertices_of, gl_of, source_is, attribute_source, fetch_in};

use crate::settings::{Attribute, Settings, VertexBuffer};
use numbers::bits32;
use records::command::{ColorF32, VertexBufferDesc, VertexFormatDesc, VertexStepMode};
use records::limits::{MAX_VERTEX_ATTRIBUTES, MAX_VERTEX_BUFFERS};
use records::same::same_option_u32;

// Where an attribute's bytes come from. The first byte is `offset` plus `base`, a sum that may be
// larger than a `u64`.
#[derive(Clone, Copy)]
pub struct Source {
    pub buffer: u32,
    pub stride: u32,
    pub step: VertexStepMode,
    pub offset: u32,
    pub base: u64,
}

// By their bits; those of every NaN are 7fc00000.
pub fn same_bits(x: f32, y: f32) -> bool
    ensures { result ≡ same_bits x y }
{
    bits32(x) == bits32(y)
}

// Not `==`: floats by their bits, as `same_bits`.
fn same_color(x: ColorF32, y: ColorF32) -> bool
    ensures { result ≡ same_color same_bits x y }
{
    same_bits(x.r, y.r) & (same_bits(x.g, y.g) & (same_bits(x.b, y.b) & same_bits(x.a, y.a)))
}

fn formats_alike(x: VertexFormatDesc, y: VertexFormatDesc) -> bool
    ensures { result ≡ formats_alike x y }
{
    x == y
}

// Whether a plus b is c plus d: by differences, since a sum may leave its field.
fn same_sum(a: u32, b: u64, c: u32, d: u64) -> bool
    ensures { result ≡ eqb (a + b) (c + d) }
{
    if a <= c {
        let more = (c - a) as u64;
        if more <= b { b - more == d } else { false }
    } else {
        let more = (a - c) as u64;
        if more <= d { d - more == b } else { false }
    }
}

// Not `==`: the first byte is a sum, which two pairs can share.
fn same_source(x: Source, y: Source) -> bool
    ensures { result ≡ sources_alike (source_is (Some x)) (source_is (Some y)) }
{
    (x.buffer == y.buffer)
        & (same_sum(x.offset, x.base, y.offset, y.base)
            & ((x.stride == y.stride) & (x.step == y.step)))
}

fn sources_alike(x: Option<Source>, y: Option<Source>) -> bool
    ensures { result ≡ sources_alike (source_is x) (source_is y) }
{
    match (x, y) {
        (None, None) => true,
        (Some(s), Some(t)) => same_source(s, t),
        _ => false,
    }
}

fn attribute_at(s: &Settings, location: usize) -> Option<Attribute>
    ensures { result ≡ attribute_in s.now location }
{
    if location < MAX_VERTEX_ATTRIBUTES {
        return s.locations[location];
    }
    None
}

fn buffer_at(s: &Settings, slot: u32) -> Option<VertexBuffer>
    ensures { result ≡ buffer_in s.now slot }
{
    let i = slot as usize;
    if i < MAX_VERTEX_BUFFERS {
        return s.slots[i];
    }
    None
}

// The source of an attribute with no buffer of its own: its slot's.
fn slot_source(offset: u32, slot: Option<VertexBuffer>) -> Option<Source>
    ensures { source_is result ≡ slot_source offset (buffer_of slot) }
{
    match slot {
        None => None,
        Some(b) => Some(Source {
            buffer: b.buffer.raw,
            stride: b.buffer_desc.stride,
            step: b.buffer_desc.step,
            offset,
            base: b.buffer.offset,
        }),
    }
}

// With a buffer of its own the attribute gives all.
fn own_source(raw: u32, desc: VertexBufferDesc, offset: u32) -> Option<Source>
    ensures { source_is result ≡ source_of (Some raw) desc offset None }
{
    Some(Source {
        buffer: raw,
        stride: desc.stride,
        step: desc.step,
        offset,
        base: 0,
    })
}

fn source_of(s: &Settings, a: Attribute) -> Option<Source>
    ensures { source_is result ≡ attribute_source s.now a }
{
    let at = a.attribute_desc;
    match a.buffer {
        None => slot_source(at.offset, buffer_at(s, at.buffer_index)),
        Some(raw) => own_source(raw, a.buffer_desc, at.offset),
    }
}

// An attribute of the first settings and one of the second, at the same location.
fn fetches_alike(x: &Settings, a: Attribute, y: &Settings, b: Attribute) -> bool
    ensures { (l : ℕ) → result ≡ location_alike (fetch_in x.now l a) (fetch_in y.now l b) }
{
    let f = a.attribute_desc.format_desc;
    let g = b.attribute_desc.format_desc;
    formats_alike(f, g) & sources_alike(source_of(x, a), source_of(y, b))
}

// Where the second settings have no attribute at the location it is no part of the comparison.
fn location_alike(x: &Settings, y: &Settings, location: usize) -> bool
    ensures { result ≡ location_alike (fetch_at (vertices_of x.now) location) (fetch_at (vertices_of y.now) location) }
{
    match attribute_at(y, location) {
        None => true,
        Some(b) => match attribute_at(x, location) {
            None => false,
            Some(a) => fetches_alike(x, a, y, b),
        },
    }
}

fn locations_alike(x: &Settings, y: &Settings) -> bool
    ensures { result ≡ all_below 16 (λ l. location_alike (fetch_at (vertices_of x.now) l) (fetch_at (vertices_of y.now) l)) }
{
    let mut same = true;
    for l in 0..MAX_VERTEX_ATTRIBUTES {
        same = location_alike(x, y, l) & same;
    }
    same
}

// Whether two draws fetch alike, the first of the list with layout, the second of the one without.
pub fn alike(x: Settings, y: Settings) -> bool
    ensures { result ≡ alike_of same_bits (gl_of x) (gl_of y) }
{
    locations_alike(&x, &y) & (same_option_u32(x.program, y.program) & same_color(x.blend, y.blend))
}
