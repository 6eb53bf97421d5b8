// Small arguments of the calls: a buffer, and rectangles before they become GL numbers.

// `Buffer`: its number, 0 where it is absent, and its target.
// 0 and no `Option`: a raw number of 0 is what the calls refuse as absent
// (`set_vertex_buffer_meaning`, calls/specs/Step.antt).
#[derive(Clone, Copy, Debug, PartialEq, Eq)]
pub struct Buffer {
    pub raw: u32,
    pub target: u32,
}

// A type for each number, no `Rect<T>`: the contracts name the number of each, and floats derive no
// `Eq`.
#[derive(Clone, Copy)]
pub struct RectF32 {
    pub x: f32,
    pub y: f32,
    pub w: f32,
    pub h: f32,
}

#[derive(Clone, Copy, Debug, PartialEq, Eq)]
pub struct RectU32 {
    pub x: u32,
    pub y: u32,
    pub w: u32,
    pub h: u32,
}
