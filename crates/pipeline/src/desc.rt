// The description of a vertex slot, in a pipeline and in the state. The contracts cite
// specs/Vertex.antt.
ghost use Rattle.std.specs.Prelude.{◌≡◌};
ghost use Rattle.slots.specs.Vertex.{is_instance};
ghost use Rattle.pipeline.specs.Vertex.{changes, steps_by_instance, step_or, described_slot};
ghost use Rattle.pipeline.specs.Desc.{desc_in, slot_desc};

use records::check::counted;
use records::command::{VertexBufferDesc, VertexStepMode};
use records::limits::MAX_VERTEX_BUFFERS;
use records::pipeline::VertexBufferLayout;
use records::state::VertexSlot;
use slots::step_of;

// A pipeline's description of slot i, among those that are counted. The pipeline's array alone: where
// the pipeline is lent, an index copies the whole of it (docs/DECISIONS.md, D76).
pub(crate) fn desc_in(
    layouts: &[VertexBufferLayout; MAX_VERTEX_BUFFERS],
    count: usize,
    i: u32,
) -> Option<VertexBufferDesc>
    ensures { result ≡ desc_in layouts.now count i }
{
    counted(layouts, count).get(i as usize)?.desc
}

// The description of a slot of the state, which has one where `there` says so.
pub(crate) fn slot_desc(
    slot: VertexSlot,
    there: bool,
    by_instance: bool,
) -> Option<VertexBufferDesc>
    ensures { result ≡ slot_desc slot there by_instance }
{
    if !there {
        return None;
    }
    Some(VertexBufferDesc {
        step: step_of(by_instance),
        stride: slot.stride,
    })
}

fn by_instance(d: VertexBufferDesc) -> bool
    ensures { result ≡ is_instance d.step }
{
    d.step == VertexStepMode::Instance
}

pub(crate) fn steps_by_instance(d: Option<VertexBufferDesc>) -> bool
    ensures { result ≡ steps_by_instance d }
{
    d.is_some_and(by_instance)
}

// The description's step, or what the state had.
pub(crate) fn step_or(old: bool, d: Option<VertexBufferDesc>) -> bool
    ensures { result ≡ step_or old d }
{
    d.map_or(old, by_instance)
}

// The slot with the description's stride. A match: with `map_or` the whole slot stands twice.
pub(crate) fn described_slot(d: Option<VertexBufferDesc>, s: VertexSlot) -> VertexSlot
    ensures { result ≡ described_slot d s }
{
    match d {
        None => s,
        Some(x) => VertexSlot {
            stride: x.stride,
            ..s
        },
    }
}

// Whether a pipeline's description is another than the state's.
pub(crate) fn desc_changes(new: Option<VertexBufferDesc>, old: Option<VertexBufferDesc>) -> bool
    ensures { result ≡ changes new old }
{
    new.is_some() && new != old
}
