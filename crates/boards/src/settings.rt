// The settings that a comparison looks at: the machine's (machine/specs/Machine.antt), as far as a
// list within document 01's limits can set them.
ghost use Rattle.std.specs.Prelude.{◌≡◌};
ghost use Rattle.boards.specs.Settings.{fresh_settings, place_attribute, place_buffer, placed};
ghost use Rattle.records.specs.declared.command.Command.TheVariants.{SetVertexAttribute, SetVertexBuffer};

use records::command::{AttributeDesc, BufferBinding, ColorF32, Command, VertexBufferDesc};
use records::limits::{MAX_VERTEX_ATTRIBUTES, MAX_VERTEX_BUFFERS};

// A vertex attribute as its command sets it.
#[derive(Clone, Copy)]
pub struct Attribute {
    pub buffer: Option<u32>,
    pub buffer_desc: VertexBufferDesc,
    pub attribute_desc: AttributeDesc,
}

// A vertex buffer as its command sets it.
#[derive(Clone, Copy)]
pub struct VertexBuffer {
    pub buffer: BufferBinding,
    pub buffer_desc: VertexBufferDesc,
}

// What stands at each location and slot, the program, and the blend constants.
#[derive(Clone, Copy)]
pub struct Settings {
    pub locations: [Option<Attribute>; MAX_VERTEX_ATTRIBUTES],
    pub slots: [Option<VertexBuffer>; MAX_VERTEX_BUFFERS],
    pub program: Option<u32>,
    pub blend: ColorF32,
}

impl Settings {
    // On a fresh machine nothing is bound, and the blend constants are zero.
    pub fn new() -> Self
        ensures { result ≡ fresh_settings }
    {
        let blend = ColorF32 {
            r: 0.0,
            g: 0.0,
            b: 0.0,
            a: 0.0,
        };
        Settings {
            locations: [None; MAX_VERTEX_ATTRIBUTES],
            slots: [None; MAX_VERTEX_BUFFERS],
            program: None,
            blend,
        }
    }
}

// At a location of 16 or more nothing is set: a list with one is turned away.
fn place_attribute(s: Settings, location: u32, held: Option<Attribute>) -> Settings
    ensures { result ≡ place_attribute s location held }
{
    let mut next = s;
    let l = location as usize;
    if l < MAX_VERTEX_ATTRIBUTES {
        next.locations[l] = held;
    }
    next
}

// The same of a slot.
fn place_buffer(s: Settings, slot: u32, held: Option<VertexBuffer>) -> Settings
    ensures { result ≡ place_buffer s slot held }
{
    let mut next = s;
    let i = slot as usize;
    if i < MAX_VERTEX_BUFFERS {
        next.slots[i] = held;
    }
    next
}

fn set_attribute(
    s: Settings,
    buffer: Option<u32>,
    buffer_desc: VertexBufferDesc,
    attribute_desc: AttributeDesc,
) -> Settings
    ensures { result ≡ placed s (SetVertexAttribute buffer buffer_desc attribute_desc) }
{
    let held = Attribute {
        buffer,
        buffer_desc,
        attribute_desc,
    };
    place_attribute(s, attribute_desc.location, Some(held))
}

fn set_buffer(
    s: Settings,
    index: u32,
    buffer: BufferBinding,
    buffer_desc: VertexBufferDesc,
) -> Settings
    ensures { result ≡ placed s (SetVertexBuffer index buffer buffer_desc) }
{
    let held = VertexBuffer {
        buffer,
        buffer_desc,
    };
    place_buffer(s, index, Some(held))
}

// The settings after a command.
pub fn place(s: Settings, command: Command) -> Settings
    ensures { result ≡ placed s command }
{
    match command {
        Command::SetVertexAttribute {
            buffer,
            buffer_desc,
            attribute_desc,
        } => set_attribute(s, buffer, buffer_desc, attribute_desc),
        Command::UnsetVertexAttribute(location) => place_attribute(s, location, None),
        Command::SetVertexBuffer {
            index,
            buffer,
            buffer_desc,
        } => set_buffer(s, index, buffer, buffer_desc),
        Command::SetProgram(program) => Settings {
            program: Some(program),
            ..s
        },
        Command::SetBlendConstant(blend) => Settings { blend, ..s },
        _ => s,
    }
}
