// The calls of the flat form, by their codes.
ghost use Rattle.std.specs.Prelude.{◌≡◌, ◌≤◌, IfSome, IfNone, IfOk};
ghost use Rattle.flat.specs.Call.{code_of};

use crate::line::{Line, Wrong};

// In the order of their codes.
#[derive(Clone, Copy, Debug, PartialEq, Eq)]
pub enum Call {
    BeginEncoding,
    EndEncoding,
    BeginRenderPass,
    EndRenderPass,
    BeginComputePass,
    EndComputePass,
    TransitionBuffers,
    TransitionTextures,
    ClearBuffer,
    CopyBufferToBuffer,
    CopyQueryResults,
    BeginQuery,
    EndQuery,
    WriteTimestamp,
    ResetQueries,
    SetBindGroup,
    SetImmediates,
    SetRenderPipeline,
    SetComputePipeline,
    SetIndexBuffer,
    SetVertexBuffer,
    SetViewport,
    SetScissorRect,
    SetStencilReference,
    SetBlendConstants,
    Draw,
    DrawIndexed,
    DrawIndirect,
    DrawIndexedIndirect,
    DispatchWorkgroups,
    DispatchWorkgroupsIndirect,
}

const CALLS: [Call; 31] = [
    Call::BeginEncoding,
    Call::EndEncoding,
    Call::BeginRenderPass,
    Call::EndRenderPass,
    Call::BeginComputePass,
    Call::EndComputePass,
    Call::TransitionBuffers,
    Call::TransitionTextures,
    Call::ClearBuffer,
    Call::CopyBufferToBuffer,
    Call::CopyQueryResults,
    Call::BeginQuery,
    Call::EndQuery,
    Call::WriteTimestamp,
    Call::ResetQueries,
    Call::SetBindGroup,
    Call::SetImmediates,
    Call::SetRenderPipeline,
    Call::SetComputePipeline,
    Call::SetIndexBuffer,
    Call::SetVertexBuffer,
    Call::SetViewport,
    Call::SetScissorRect,
    Call::SetStencilReference,
    Call::SetBlendConstants,
    Call::Draw,
    Call::DrawIndexed,
    Call::DrawIndirect,
    Call::DrawIndexedIndirect,
    Call::DispatchWorkgroups,
    Call::DispatchWorkgroupsIndirect,
];

pub const LAST_CODE: usize = 30;

// The call with the code.
pub fn call_of(code: usize) -> Option<Call>
    ensures named { IfSome result (λ c. code_of c ≡ code) }
    ensures unnamed { IfNone result (31 ≤ code) }
{
    CALLS.get(code).copied()
}

// The call that the next number names.
pub fn take_call(line: &mut Line) -> Result<Call, Wrong>
    ensures { IfOk result (λ c. code_of c ≤ 30) }
{
    let code = line.take_count(LAST_CODE)?;
    Ok(call_of(code).unwrap())
}
