// A line is put together from its end: each function puts a text in front of what stands from `at`
// on, and gives where the whole begins. Kept, a run and a place in it: the promises of `put_decimal`,
// `put_word` and `put_shown` are over any lent run.
ghost use Rattle.std.specs.Prelude.{◌≡◌, [], ◌∷◌, ◌++◌, ◌+◌, ◌≤◌, ◌<◌, length, get_or};
ghost use Rattle.std.proofs.Math.Seq.{slice};
ghost use Rattle.text.specs.Digits.{decimal, hex_digit, hex, signed};
ghost use Rattle.text.specs.Field.{flag_byte, present_of, optional, word_text, field_text, spaced};
ghost use Rattle.text.specs.Shown.{names, ends, name_at, list_of};
ghost use Rattle.text.specs.Put.{Put, body_of, line_from};

use crate::field::{Field, Shown, Word};

// The names in the order of the commands, those of the state's rows, and two words, each after a
// blank. Kept, one text and its ends: `names` and `ends` of specs/Shown.antt are these tables.
const NAMES: [u8; 994] =
    *b" Draw DrawIndexed DrawIndirect DrawIndexedIndirect Dispatch DispatchIndirect ClearBuffer \
    CopyBufferToBuffer SetIndexBuffer BeginQuery EndQuery TimestampQuery CopyQueryResults \
    ResetFramebuffer BindAttachment ResolveAttachment InvalidateAttachments SetDrawColorBuffers \
    ClearColorF ClearColorU ClearColorI ClearDepth ClearStencil ClearDepthAndStencil \
    BufferBarrier TextureBarrier SetViewport SetScissor SetStencilFunc SetStencilOps SetDepth \
    SetDepthBias ConfigureDepthStencil SetAlphaToCoverage SetVertexAttribute \
    UnsetVertexAttribute SetVertexBuffer SetProgram SetPrimitive SetBlendConstant \
    SetColorTarget BindBuffer BindSampler BindTexture BindImage PushDebugGroup PopDebugGroup \
    SetImmediates SetClipDistances topology primitive index slot attribute target stencil front \
    stencil back bias alpha_to_coverage sampler texture_slot render_size resolve invalidate \
    has_pass_label instance_mask instance first_instance_location descriptor word \
    end_of_pass_timestamp clip_distance_count dirty_mask state";

// Where each of them begins, and the end of the last.
const ENDS: [usize; 75] = [
    0, 5, 17, 30, 50, 59, 76, 88, 107, 122, 133, 142, 157, 174, 191, 206, 224, 246, 266, 278, 290,
    302, 313, 326, 347, 361, 376, 388, 399, 414, 428, 437, 450, 472, 491, 510, 531, 547, 558, 571,
    588, 603, 614, 626, 638, 648, 663, 677, 691, 708, 717, 727, 733, 738, 748, 755, 769, 782, 787,
    805, 813, 826, 838, 846, 857, 872, 886, 895, 919, 930, 935, 957, 977, 988, 994,
];

fn name_end(place: usize) -> usize
    requires { place < 75 }
    ensures { result ≡ get_or ends place 0 }
{
    ENDS[place]
}

// A blank and the name at this place.
fn name(place: usize) -> &'static [u8]
    requires { place < 74 }
    ensures { result.now ≡ name_at place }
{
    let from = name_end(place);
    let to = name_end(place + 1);
    &NAMES[from..to]
}

// One byte.
fn put(line: &mut [u8], at: usize, byte: u8) -> usize
    requires { (0 < at) × (at ≤ length line.old) }
    ensures { Put (byte ∷ []) line.old at line.new result }
{
    let i = at - 1;
    line[i] = byte;
    i
}

// Bytes as they stand.
fn put_text(line: &mut [u8], at: usize, text: &[u8]) -> usize
    requires { (length text.now ≤ at) × (at ≤ length line.old) }
    ensures { Put text.now line.old at line.new result }
{
    let i = at - text.len();
    line[i..at].copy_from_slice(text);
    i
}

// The digits to the base ten, the last first.
pub fn put_decimal(line: &mut [u8], at: usize, n: u64) -> usize
    requires { (20 ≤ at) × (at ≤ length line.old) }
    ensures { Put (decimal n) line.old at line.new result }
{
    let mut i = at;
    let mut rest = n;
    while rest >= 10 {
        i = put(line, i, 48 + (rest % 10) as u8);
        rest /= 10;
    }
    put(line, i, 48 + rest as u8)
}

fn hex_digit(d: u32) -> u8
    requires { d < 16 }
    ensures { result ≡ hex_digit d }
{
    if d < 10 { 48 + d as u8 } else { 87 + d as u8 }
}

// Eight digits to the base sixteen, the last first.
fn put_hex(line: &mut [u8], at: usize, n: u32) -> usize
    requires { (20 ≤ at) × (at ≤ length line.old) }
    ensures { Put (hex n) line.old at line.new result }
{
    let mut i = at;
    let mut rest = n;
    for _k in (0..8usize).rev() {
        i = put(line, i, hex_digit(rest % 16));
        rest /= 16;
    }
    i
}

// A negative number has 2 ^ 32 minus its size as its bits.
fn put_signed(line: &mut [u8], at: usize, z: i32) -> usize
    requires { (21 ≤ at) × (at ≤ length line.old) }
    ensures { Put (signed z) line.old at line.new result }
{
    let n = numbers::as_u32(z) as u64;
    if n < 2147483648 {
        return put_decimal(line, at, n);
    }
    let i = put_decimal(line, at, 4294967296 - n);
    put(line, i, b'-')
}

fn flag_byte(b: bool) -> u8
    ensures { result ≡ flag_byte b }
{
    if b { b'1' } else { b'0' }
}

// The number of a buffer, which 0 is not.
fn present(n: u32) -> Option<u32>
    ensures { result ≡ present_of n }
{
    if n == 0 { None } else { Some(n) }
}

fn put_optional(line: &mut [u8], at: usize, o: Option<u32>) -> usize
    requires { (20 ≤ at) × (at ≤ length line.old) }
    ensures { Put (optional o) line.old at line.new result }
{
    match o {
        None => put(line, at, b'-'),
        Some(n) => put_decimal(line, at, n as u64),
    }
}

fn put_field(line: &mut [u8], at: usize, field: Field) -> usize
    requires { (21 ≤ at) × (at ≤ length line.old) }
    ensures { Put (field_text field) line.old at line.new result }
{
    match field {
        Field::Number(n) => put_decimal(line, at, n as u64),
        Field::Long(n) => put_decimal(line, at, n),
        Field::Signed(z) => put_signed(line, at, z),
        Field::Flag(b) => put(line, at, flag_byte(b)),
        Field::Float(x) => put_hex(line, at, numbers::bits32(x)),
        Field::Bits(n) => put_hex(line, at, n),
        Field::Optional(o) => put_optional(line, at, o),
        Field::Buffer(n) => put_optional(line, at, present(n)),
        Field::Absent => put(line, at, b'-'),
        Field::Text(w) => put_word(line, at, w),
    }
}

// A blank and a field.
fn put_item(line: &mut [u8], at: usize, field: Field) -> usize
    requires { (22 ≤ at) × (at ≤ length line.old) }
    ensures { Put (32 ∷ field_text field) line.old at line.new result }
{
    let i = put_field(line, at, field);
    put(line, i, b' ')
}

// Each field after a blank, the last first.
fn put_fields(line: &mut [u8], at: usize, shown: Shown) -> usize
    requires { (308 ≤ at) × (at ≤ length line.old) × (shown.count ≤ 14) }
    ensures { Put (spaced (list_of shown)) line.old at line.new result }
{
    let mut i = at;
    for k in (0..shown.count).rev() {
        i = put_item(line, i, shown.items[k]);
    }
    i
}

pub fn put_word(line: &mut [u8], at: usize, word: Word) -> usize
    requires { (21 ≤ at) × (at ≤ length line.old) }
    ensures { Put (word_text word) line.old at line.new result }
{
    match word {
        Word::DirtyMask => put_text(line, at, b"dirty_mask"),
        Word::State => put_text(line, at, b"state"),
    }
}

// A blank and the name at this place.
fn put_name(line: &mut [u8], at: usize, place: usize) -> usize
    requires { (24 ≤ at) × (at ≤ length line.old) × (place < 74) }
    ensures { Put (name_at place) line.old at line.new result }
{
    put_text(line, at, name(place))
}

// A name, its fields and the end of the line, at the end of `line`.
pub fn put_shown(line: &mut [u8], shown: Shown) -> usize
    requires { (length line.old ≡ 384) × (shown.name < 74) × (shown.count ≤ 14) }
    ensures { Put (body_of shown) line.old 384 line.new result }
{
    let place = shown.name;
    let end = put(line, 384, b'\n');
    let fields = put_fields(line, end, shown);
    put_name(line, fields, place)
}

// A command's line, at the end of `line`.
pub(crate) fn put_line(line: &mut [u8], number: u64, shown: Shown) -> usize
    requires { (length line.old ≡ 384) × (shown.name < 74) × (shown.count ≤ 14) }
    ensures { Put (line_from number shown) line.old 384 line.new result }
{
    let i = put_shown(line, shown);
    put_decimal(line, i, number)
}
