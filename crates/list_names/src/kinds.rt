// Which lines are printed, and which fields of a command hold a GL number that is read back.
use crate::words::Words;
use name_reads::word::Map;

// A line that is printed as it stands, or a command by its fields: the map by which a field's number
// is read back, where it is.
// No `Option`: `kind_of` already answers one of it, and `Whole` says what a second `None` would
// not.
#[derive(Clone, Copy)]
pub(crate) enum Kind {
    Whole,
    Command(&'static [Option<Map>]),
}

const DRAW: [Option<Map>; 6] = [Some(Map::PrimitiveTopology), None, None, None, None, None];

const DRAW_INDEXED: [Option<Map>; 8] = [
    Some(Map::PrimitiveTopology),
    None,
    None,
    None,
    None,
    None,
    None,
    None,
];

const DRAW_INDIRECT: [Option<Map>; 4] = [Some(Map::PrimitiveTopology), None, None, None];

const DRAW_INDEXED_INDIRECT: [Option<Map>; 5] = [
    Some(Map::PrimitiveTopology),
    None,
    None,
    None,
    None,
];

const SET_PRIMITIVE: [Option<Map>; 4] = [Some(Map::FrontFace), Some(Map::CullMode), None, None];

const SET_DEPTH: [Option<Map>; 2] = [Some(Map::CompareFunc), None];

const SET_STENCIL_FUNC: [Option<Map>; 4] = [None, Some(Map::CompareFunc), None, None];

const SET_STENCIL_OPS: [Option<Map>; 5] = [
    None,
    None,
    Some(Map::StencilOp),
    Some(Map::StencilOp),
    Some(Map::StencilOp),
];

const SET_COLOR_TARGET: [Option<Map>; 8] = [
    None,
    None,
    Some(Map::BlendFactor),
    Some(Map::BlendFactor),
    Some(Map::BlendOperation),
    Some(Map::BlendFactor),
    Some(Map::BlendFactor),
    Some(Map::BlendOperation),
];

// A SetColorTarget whose blend is `-`.
const UNBLENDED: [Option<Map>; 3] = [None, None, None];

// The fields of a command from its name and its third field, where it is shown.
fn fields_of(name: &[u8], third: &[u8]) -> Option<&'static [Option<Map>]> {
    match name {
        b"Draw" => Some(&DRAW),
        b"DrawIndexed" => Some(&DRAW_INDEXED),
        b"DrawIndirect" => Some(&DRAW_INDIRECT),
        b"DrawIndexedIndirect" => Some(&DRAW_INDEXED_INDIRECT),
        b"SetPrimitive" => Some(&SET_PRIMITIVE),
        b"SetDepth" => Some(&SET_DEPTH),
        b"SetStencilFunc" => Some(&SET_STENCIL_FUNC),
        b"SetStencilOps" => Some(&SET_STENCIL_OPS),
        b"SetColorTarget" => match third {
            b"-" => Some(&UNBLENDED),
            _ => Some(&SET_COLOR_TARGET),
        },
        _ => None,
    }
}

// The kind of a line that is printed.
pub(crate) fn kind_of(line: &[u8]) -> Option<Kind> {
    if let b"---" | b"===" = line {
        return Some(Kind::Whole);
    }
    if line.starts_with(b"error:") {
        return Some(Kind::Whole);
    }
    let mut words = Words::new(line);
    words.next();
    let name = words.next();
    words.next();
    words.next();
    let third = words.next();
    Some(Kind::Command(fields_of(name.bytes, third.bytes)?))
}
