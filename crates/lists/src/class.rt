// The commands in classes: only `class_of` goes through all of them, a line each, so that none falls
// to another's class unseen. The contracts cite
// specs/Class.antt; proofs/Kept.antt ties the classes to the machine.
ghost use Rattle.std.specs.Prelude.{◌≡◌};
ghost use Rattle.lists.specs.Class.{target_of, class_of, draws};

use records::command::Command;

// What a setting command overwrites.
#[derive(Clone, Copy)]
pub enum Thing {
    // By location.
    Attribute(u32),
    // By slot.
    VertexBuffer(u32),
    IndexBuffer,
    // By target and slot.
    Buffer(u32, u32),
    // By slot, and so the next two.
    Texture(u32),
    Image(u32),
    Sampler(u32),
    Viewport,
    Scissor,
    BlendConstants,
    Program,
    Primitive,
    DepthBias,
    AlphaToCoverage,
    ClipDistances,
    // Which of the two a pipeline has.
    DepthStencil,
    Depth,
    // By place.
    Target(u32),
    // All of them.
    Targets,
    // By face, and so the next.
    StencilFunction(u32),
    StencilOperations(u32),
}

// What a command is to who looks at a list.
#[derive(Clone, Copy)]
pub enum Class {
    Draw,
    // A pass clear.
    Clear,
    Dispatch,
    // A framebuffer reset.
    Reset,
    Sets(Thing),
    Other,
}

// The colour target of a place, or without one all of them.
fn target_of(place: Option<u32>) -> Thing
    ensures { result ≡ target_of place }
{
    match place {
        None => Thing::Targets,
        Some(i) => Thing::Target(i),
    }
}

pub fn class_of(command: Command) -> Class
    ensures { result ≡ class_of command }
{
    match command {
        Command::Draw { .. } => Class::Draw,
        Command::DrawIndexed { .. } => Class::Draw,
        Command::DrawIndirect { .. } => Class::Draw,
        Command::DrawIndexedIndirect { .. } => Class::Draw,
        Command::Dispatch(_, _, _) => Class::Dispatch,
        Command::DispatchIndirect { .. } => Class::Dispatch,
        Command::ClearBuffer { .. } => Class::Other,
        Command::CopyBufferToBuffer { .. } => Class::Other,
        Command::SetIndexBuffer(_) => Class::Sets(Thing::IndexBuffer),
        Command::BeginQuery(_, _) => Class::Other,
        Command::EndQuery(_) => Class::Other,
        Command::TimestampQuery(_) => Class::Other,
        Command::CopyQueryResults { .. } => Class::Other,
        Command::ResetFramebuffer { .. } => Class::Reset,
        Command::BindAttachment { .. } => Class::Other,
        Command::ResolveAttachment { .. } => Class::Other,
        Command::InvalidateAttachments(_) => Class::Other,
        Command::SetDrawColorBuffers(_) => Class::Other,
        Command::ClearColorF { .. } => Class::Clear,
        Command::ClearColorU(_, _) => Class::Clear,
        Command::ClearColorI(_, _) => Class::Clear,
        Command::ClearDepth(_) => Class::Clear,
        Command::ClearStencil(_) => Class::Clear,
        Command::ClearDepthAndStencil(_, _) => Class::Clear,
        Command::BufferBarrier(_, _) => Class::Other,
        Command::TextureBarrier(_) => Class::Other,
        Command::SetViewport { .. } => Class::Sets(Thing::Viewport),
        Command::SetScissor(_) => Class::Sets(Thing::Scissor),
        Command::SetStencilFunc { face, .. } => Class::Sets(Thing::StencilFunction(face)),
        Command::SetStencilOps { face, .. } => Class::Sets(Thing::StencilOperations(face)),
        Command::SetDepth(_) => Class::Sets(Thing::Depth),
        Command::SetDepthBias(_) => Class::Sets(Thing::DepthBias),
        Command::ConfigureDepthStencil(_) => Class::Sets(Thing::DepthStencil),
        Command::SetAlphaToCoverage(_) => Class::Sets(Thing::AlphaToCoverage),
        Command::SetVertexAttribute { attribute_desc, .. } => {
            Class::Sets(Thing::Attribute(attribute_desc.location))
        }
        Command::UnsetVertexAttribute(location) => Class::Sets(Thing::Attribute(location)),
        Command::SetVertexBuffer { index, .. } => Class::Sets(Thing::VertexBuffer(index)),
        Command::SetProgram(_) => Class::Sets(Thing::Program),
        Command::SetPrimitive(_) => Class::Sets(Thing::Primitive),
        Command::SetBlendConstant(_) => Class::Sets(Thing::BlendConstants),
        Command::SetColorTarget {
            draw_buffer_index,
            ..
        } => Class::Sets(target_of(draw_buffer_index)),
        Command::BindBuffer { target, slot, .. } => Class::Sets(Thing::Buffer(target, slot)),
        Command::BindSampler(slot, _) => Class::Sets(Thing::Sampler(slot)),
        Command::BindTexture { slot, .. } => Class::Sets(Thing::Texture(slot)),
        Command::BindImage { slot, .. } => Class::Sets(Thing::Image(slot)),
        Command::PushDebugGroup(_) => Class::Other,
        Command::PopDebugGroup => Class::Other,
        Command::SetImmediates { .. } => Class::Other,
        Command::SetClipDistances { .. } => Class::Sets(Thing::ClipDistances),
    }
}

pub fn is_draw(class: Class) -> bool
    ensures { result ≡ draws class }
{
    matches!(class, Class::Draw)
}
