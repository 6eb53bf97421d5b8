// What is shown of each command, in the order of gles/mod.rs: the command's place in that order and its
// fields.
ghost use Rattle.std.specs.Prelude.{◌≡◌, [], ◌∷◌, ◌++◌, ◌≤◌};
ghost use Rattle.records.specs.declared.command.Command.TheVariants.{SetVertexAttribute, SetVertexBuffer, SetColorTarget};
ghost use Rattle.text.specs.declared.field.Field.TheVariants.{Number};
ghost use Rattle.text.specs.Command.{is_instance, is_integer, sample_of, inner_kind, inner_number, inner_target, view_fields};
ghost use Rattle.text.specs.Shown.{place_of, built, Tells};

use crate::field::{Field, Shown};
use records::command::{
    AttributeDesc, BufferBinding, ColorTargetDesc, Command, SampleKind, TextureInner, TextureView,
    VertexAttribKind, VertexBufferDesc, VertexStepMode,
};

// Draws, dispatches, copies and queries; the others after them.
pub(crate) fn shown(command: Command) -> Shown
    ensures { Tells command result }
{
    match command {
        Command::Draw {
            topology,
            first_vertex,
            vertex_count,
            first_instance,
            instance_count,
            first_instance_location,
        } => Shown::new(
            0,
            [
                Field::Number(topology),
                Field::Number(first_vertex),
                Field::Number(vertex_count),
                Field::Number(first_instance),
                Field::Number(instance_count),
                Field::Optional(first_instance_location),
            ],
        ),
        Command::DrawIndexed {
            topology,
            index_type,
            index_count,
            index_offset,
            base_vertex,
            first_instance,
            instance_count,
            first_instance_location,
        } => Shown::new(
            1,
            [
                Field::Number(topology),
                Field::Number(index_type),
                Field::Number(index_count),
                Field::Long(index_offset),
                Field::Signed(base_vertex),
                Field::Number(first_instance),
                Field::Number(instance_count),
                Field::Optional(first_instance_location),
            ],
        ),
        Command::DrawIndirect {
            topology,
            indirect_buf,
            indirect_offset,
            first_instance_location,
        } => Shown::new(
            2,
            [
                Field::Number(topology),
                Field::Number(indirect_buf),
                Field::Long(indirect_offset),
                Field::Optional(first_instance_location),
            ],
        ),
        Command::DrawIndexedIndirect {
            topology,
            index_type,
            indirect_buf,
            indirect_offset,
            first_instance_location,
        } => Shown::new(
            3,
            [
                Field::Number(topology),
                Field::Number(index_type),
                Field::Number(indirect_buf),
                Field::Long(indirect_offset),
                Field::Optional(first_instance_location),
            ],
        ),
        Command::Dispatch(x, y, z) => Shown::new(
            4,
            [Field::Number(x), Field::Number(y), Field::Number(z)],
        ),
        Command::DispatchIndirect {
            indirect_buf,
            indirect_offset,
        } => Shown::new(
            5,
            [Field::Number(indirect_buf), Field::Long(indirect_offset)],
        ),
        Command::ClearBuffer {
            dst,
            dst_target,
            range,
        } => Shown::new(
            6,
            [
                Field::Buffer(dst),
                Field::Number(dst_target),
                Field::Long(range.start),
                Field::Long(range.end),
            ],
        ),
        Command::CopyBufferToBuffer {
            src,
            src_target,
            dst,
            dst_target,
            copy,
        } => Shown::new(
            7,
            [
                Field::Buffer(src),
                Field::Number(src_target),
                Field::Buffer(dst),
                Field::Number(dst_target),
                Field::Long(copy.src_offset),
                Field::Long(copy.dst_offset),
                Field::Long(copy.size),
            ],
        ),
        Command::SetIndexBuffer(buffer) => Shown::new(8, [Field::Number(buffer)]),
        Command::BeginQuery(query, target) => Shown::new(
            9,
            [Field::Number(query), Field::Number(target)],
        ),
        Command::EndQuery(target) => Shown::new(10, [Field::Number(target)]),
        Command::TimestampQuery(query) => Shown::new(11, [Field::Number(query)]),
        Command::CopyQueryResults {
            query_range,
            dst,
            dst_target,
            dst_offset,
        } => Shown::new(
            12,
            [
                Field::Number(query_range.start),
                Field::Number(query_range.end),
                Field::Buffer(dst),
                Field::Number(dst_target),
                Field::Long(dst_offset),
            ],
        ),
        _ => shown_pass(command),
    }
}

// Framebuffers, clears, barriers, viewport and scissor.
fn shown_pass(command: Command) -> Shown
    requires { 13 ≤ place_of command }
    ensures { Tells command result }
{
    match command {
        Command::ResetFramebuffer { is_default } => Shown::new(13, [Field::Flag(is_default)]),
        Command::BindAttachment {
            attachment,
            view,
            depth_slice,
            sample_count,
        } => attachment_fields(
            14,
            13,
            attachment,
            view,
            Field::Optional(depth_slice),
            Field::Number(sample_count),
            Field::Absent,
        ),
        Command::ResolveAttachment {
            attachment,
            dst,
            size,
        } => attachment_fields(
            15,
            14,
            attachment,
            dst,
            Field::Number(size.width),
            Field::Number(size.height),
            Field::Number(size.depth_or_array_layers),
        ),
        Command::InvalidateAttachments(attachments) => Shown::new(16, [Field::Number(attachments)]),
        Command::SetDrawColorBuffers(count) => Shown::new(17, [Field::Number(count)]),
        Command::ClearColorF { draw_buffer, color } => Shown::new(
            18,
            [
                Field::Number(draw_buffer),
                Field::Float(color.r),
                Field::Float(color.g),
                Field::Float(color.b),
                Field::Float(color.a),
                Field::Flag(color.is_srgb),
            ],
        ),
        Command::ClearColorU(draw_buffer, color) => Shown::new(
            19,
            [
                Field::Number(draw_buffer),
                Field::Number(color.r),
                Field::Number(color.g),
                Field::Number(color.b),
                Field::Number(color.a),
            ],
        ),
        Command::ClearColorI(draw_buffer, color) => Shown::new(
            20,
            [
                Field::Number(draw_buffer),
                Field::Signed(color.r),
                Field::Signed(color.g),
                Field::Signed(color.b),
                Field::Signed(color.a),
            ],
        ),
        Command::ClearDepth(depth) => Shown::new(21, [Field::Float(depth)]),
        Command::ClearStencil(value) => Shown::new(22, [Field::Number(value)]),
        Command::ClearDepthAndStencil(depth, value) => Shown::new(
            23,
            [Field::Float(depth), Field::Number(value)],
        ),
        Command::BufferBarrier(buffer, uses) => Shown::new(
            24,
            [Field::Number(buffer), Field::Number(uses)],
        ),
        Command::TextureBarrier(uses) => Shown::new(25, [Field::Number(uses)]),
        Command::SetViewport { rect, depth } => Shown::new(
            26,
            [
                Field::Signed(rect.x),
                Field::Signed(rect.y),
                Field::Signed(rect.w),
                Field::Signed(rect.h),
                Field::Float(depth.start),
                Field::Float(depth.end),
            ],
        ),
        Command::SetScissor(rect) => Shown::new(
            27,
            [
                Field::Signed(rect.x),
                Field::Signed(rect.y),
                Field::Signed(rect.w),
                Field::Signed(rect.h),
            ],
        ),
        _ => shown_state(command),
    }
}

// Stencil, depth, vertices, program, primitives, blending and colour targets.
fn shown_state(command: Command) -> Shown
    requires { 28 ≤ place_of command }
    ensures { Tells command result }
{
    match command {
        Command::SetStencilFunc {
            face,
            function,
            reference,
            read_mask,
        } => Shown::new(
            28,
            [
                Field::Number(face),
                Field::Number(function),
                Field::Number(reference),
                Field::Number(read_mask),
            ],
        ),
        Command::SetStencilOps {
            face,
            write_mask,
            ops,
        } => Shown::new(
            29,
            [
                Field::Number(face),
                Field::Number(write_mask),
                Field::Number(ops.pass),
                Field::Number(ops.fail),
                Field::Number(ops.depth_fail),
            ],
        ),
        Command::SetDepth(depth) => Shown::new(
            30,
            [Field::Number(depth.function), Field::Flag(depth.mask)],
        ),
        Command::SetDepthBias(bias) => Shown::new(
            31,
            [
                Field::Signed(bias.constant),
                Field::Bits(bias.slope_scale),
                Field::Bits(bias.clamp),
            ],
        ),
        Command::ConfigureDepthStencil(aspects) => Shown::new(32, [Field::Number(aspects)]),
        Command::SetAlphaToCoverage(enabled) => Shown::new(33, [Field::Flag(enabled)]),
        Command::SetVertexAttribute {
            buffer,
            buffer_desc,
            attribute_desc,
        } => set_vertex_attribute(buffer, buffer_desc, attribute_desc),
        Command::UnsetVertexAttribute(location) => Shown::new(35, [Field::Number(location)]),
        Command::SetVertexBuffer {
            index,
            buffer,
            buffer_desc,
        } => set_vertex_buffer(index, buffer, buffer_desc),
        Command::SetProgram(program) => Shown::new(37, [Field::Number(program)]),
        Command::SetPrimitive(state) => Shown::new(
            38,
            [
                Field::Number(state.front_face),
                Field::Number(state.cull_face),
                Field::Flag(state.unclipped_depth),
                Field::Number(state.polygon_mode),
            ],
        ),
        Command::SetBlendConstant(color) => Shown::new(
            39,
            [
                Field::Float(color.r),
                Field::Float(color.g),
                Field::Float(color.b),
                Field::Float(color.a),
            ],
        ),
        Command::SetColorTarget {
            draw_buffer_index,
            desc,
        } => set_color_target(draw_buffer_index, desc),
        _ => shown_binding(command),
    }
}

// Bindings, debug groups, immediates and clip distances: no command is left for `_`.
fn shown_binding(command: Command) -> Shown
    requires { 41 ≤ place_of command }
    ensures { Tells command result }
{
    match command {
        Command::BindBuffer {
            target,
            slot,
            buffer,
            offset,
            size,
        } => Shown::new(
            41,
            [
                Field::Number(target),
                Field::Number(slot),
                Field::Number(buffer),
                Field::Signed(offset),
                Field::Signed(size),
            ],
        ),
        Command::BindSampler(unit, sampler) => Shown::new(
            42,
            [Field::Number(unit), Field::Optional(sampler)],
        ),
        Command::BindTexture {
            slot,
            texture,
            target,
            aspects,
            mip_levels,
        } => Shown::new(
            43,
            [
                Field::Number(slot),
                Field::Number(texture),
                Field::Number(target),
                Field::Number(aspects),
                Field::Number(mip_levels.start),
                Field::Number(mip_levels.end),
            ],
        ),
        Command::BindImage { slot, binding } => {
            let layer = binding.array_layer;
            Shown::new(
                44,
                [
                    Field::Number(slot),
                    Field::Number(binding.raw),
                    Field::Number(binding.mip_level),
                    Field::Optional(layer),
                    Field::Number(binding.access),
                    Field::Number(binding.format),
                ],
            )
        }
        Command::PushDebugGroup(range) => Shown::new(
            45,
            [Field::Number(range.start), Field::Number(range.end)],
        ),
        Command::PopDebugGroup => Shown::new(46, []),
        Command::SetImmediates { uniform, offset } => Shown::new(
            47,
            [
                Field::Number(uniform.location),
                Field::Number(uniform.ty),
                Field::Number(uniform.offset),
                Field::Number(uniform.size_bytes),
                Field::Number(offset),
            ],
        ),
        Command::SetClipDistances {
            old_count,
            new_count,
        } => Shown::new(48, [Field::Number(old_count), Field::Number(new_count)]),
        _ => Shown::new(0, []),
    }
}

fn is_instance(step: VertexStepMode) -> bool
    ensures { result ≡ is_instance step }
{
    match step {
        VertexStepMode::Vertex => false,
        VertexStepMode::Instance => true,
    }
}

pub fn is_integer(kind: VertexAttribKind) -> bool
    ensures { result ≡ is_integer kind }
{
    match kind {
        VertexAttribKind::Float => false,
        VertexAttribKind::Integer => true,
    }
}

fn sample_of(kind: SampleKind) -> u32
    ensures { result ≡ sample_of kind }
{
    match kind {
        SampleKind::Float => 0,
        SampleKind::Uint => 1,
        SampleKind::Sint => 2,
        SampleKind::Depth => 3,
    }
}

fn inner_kind(inner: TextureInner) -> u32
    ensures { result ≡ inner_kind inner }
{
    match inner {
        TextureInner::Renderbuffer(_) => 0,
        TextureInner::DefaultRenderbuffer => 1,
        TextureInner::Texture { raw: _, target: _ } => 2,
        TextureInner::ExternalNativeFramebuffer(_) => 3,
    }
}

fn inner_number(inner: TextureInner) -> Field
    ensures { result ≡ inner_number inner }
{
    match inner {
        TextureInner::Renderbuffer(raw) => Field::Number(raw),
        TextureInner::DefaultRenderbuffer => Field::Absent,
        TextureInner::Texture { raw, target: _ } => Field::Number(raw),
        TextureInner::ExternalNativeFramebuffer(raw) => Field::Number(raw),
    }
}

fn inner_target(inner: TextureInner) -> Field
    ensures { result ≡ inner_target inner }
{
    match inner {
        TextureInner::Renderbuffer(_) => Field::Absent,
        TextureInner::DefaultRenderbuffer => Field::Absent,
        TextureInner::Texture { raw: _, target } => Field::Number(target),
        TextureInner::ExternalNativeFramebuffer(_) => Field::Absent,
    }
}

// The first `count` of an attachment, a view, and three fields.
fn attachment_fields(
    name: usize,
    count: usize,
    attachment: u32,
    view: TextureView,
    x: Field,
    y: Field,
    z: Field,
) -> Shown
    ensures { result ≡ built name count (Number attachment ∷ (view_fields view ++ (x ∷ y ∷ z ∷ []))) }
{
    let inner = view.inner;
    let kind = view.kind;
    let number = inner_number(inner);
    let target = inner_target(inner);
    let items = [
        Field::Number(attachment),
        Field::Number(inner_kind(inner)),
        number,
        target,
        Field::Number(view.aspects),
        Field::Number(view.mip_levels.start),
        Field::Number(view.mip_levels.end),
        Field::Number(view.array_layers.start),
        Field::Number(view.array_layers.end),
        Field::Number(sample_of(kind)),
        Field::Flag(view.is_srgb),
        x,
        y,
        z,
    ];
    Shown { name, count, items }
}

fn set_vertex_attribute(
    buffer: Option<u32>,
    buffer_desc: VertexBufferDesc,
    attribute_desc: AttributeDesc,
) -> Shown
    ensures { Tells (SetVertexAttribute buffer buffer_desc attribute_desc) result }
{
    let step = buffer_desc.step;
    let format = attribute_desc.format_desc;
    let kind = format.attrib_kind;
    Shown::new(
        34,
        [
            Field::Optional(buffer),
            Field::Flag(is_instance(step)),
            Field::Number(buffer_desc.stride),
            Field::Number(attribute_desc.location),
            Field::Number(attribute_desc.offset),
            Field::Number(attribute_desc.buffer_index),
            Field::Signed(format.element_count),
            Field::Number(format.element_format),
            Field::Flag(is_integer(kind)),
        ],
    )
}

fn set_vertex_buffer(index: u32, buffer: BufferBinding, buffer_desc: VertexBufferDesc) -> Shown
    ensures { Tells (SetVertexBuffer index buffer buffer_desc) result }
{
    let step = buffer_desc.step;
    Shown::new(
        36,
        [
            Field::Number(index),
            Field::Number(buffer.raw),
            Field::Long(buffer.offset),
            Field::Flag(is_instance(step)),
            Field::Number(buffer_desc.stride),
        ],
    )
}

fn set_color_target(draw_buffer_index: Option<u32>, desc: ColorTargetDesc) -> Shown
    ensures { Tells (SetColorTarget draw_buffer_index desc) result }
{
    let mask = desc.mask;
    let blend = desc.blend;
    match blend {
        None => Shown::new(
            40,
            [
                Field::Optional(draw_buffer_index),
                Field::Number(mask),
                Field::Absent,
            ],
        ),
        Some(b) => Shown::new(
            40,
            [
                Field::Optional(draw_buffer_index),
                Field::Number(mask),
                Field::Number(b.alpha.src),
                Field::Number(b.alpha.dst),
                Field::Number(b.alpha.equation),
                Field::Number(b.color.src),
                Field::Number(b.color.dst),
                Field::Number(b.color.equation),
            ],
        ),
    }
}
