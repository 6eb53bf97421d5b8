// What a draw records before its own command: how many commands, whether a sum leaves its field,
// and which slots lose their dirty bit.
ghost use Rattle.std.specs.Prelude.{◌≡◌, ◌<◌, cond, length};
ghost use Rattle.std.specs.List.{list_any};
ghost use Rattle.mask.specs.Mask.{mask_of, places};
ghost use Rattle.slots.specs.Vertex.{attributes_of};
ghost use Rattle.slots.specs.Prepare.{slot_over, cleared, prepared, prepared_over, prepared_state, remembered as remembered_of};
ghost use Rattle.slots.specs.Sent.{sent_flags, prepared_places};
ghost use Rattle.slots.specs.Sweep.{sweep_one, swept};

use crate::{attribute_over, slot_over, woken};
use records::check::counted;
use records::command::AttributeDesc;
use records::limits::MAX_VERTEX_BUFFERS;
use records::pipeline::PrivateCapabilities;
use records::state::VertexState;
use std::array;

// Whether a slot of m is over, with layouts.
fn slots_over(v: VertexState, w: u32, m: u32) -> bool
    ensures { result ≡ list_any (slot_over v w) (places m) }
{
    mask::visit(m).any(|i| slot_over(v, w, i))
}

// What has been found of the attributes gone through: how many are to be sent, their slots, and
// whether one of them is over.
#[derive(Clone, Copy)]
pub struct Sweep {
    pub count: u32,
    pub slots: u32,
    pub over: bool,
}

fn sweep_attribute(m: u32, v: VertexState, w: u32, s: Sweep, a: AttributeDesc) -> Sweep
    requires { s.count < 16 }
    ensures { result ≡ sweep_one m v w s a }
{
    if mask::test(m, a.buffer_index) {
        let low = a.buffer_index < 16;
        Sweep {
            count: s.count + 1,
            slots: mask::set_if(s.slots, a.buffer_index, low),
            over: attribute_over(v, w, a) | s.over,
        }
    } else {
        s
    }
}

fn sweep_attributes(v: VertexState, w: u32, m: u32) -> Sweep
    ensures { result ≡ swept m v w (attributes_of v) }
{
    let held = v.attributes;
    let attributes = counted(&held, v.attribute_count);
    let mut sweep = Sweep {
        count: 0,
        slots: 0,
        over: false,
    };
    for i in (0..attributes.len()).rev() {
        sweep = sweep_attribute(m, v, w, sweep, attributes[i]);
    }
    sweep
}

// The places in the list of the attributes to be sent.
fn sent_attributes(v: VertexState, m: u32) -> u32
    ensures { result ≡ mask_of (sent_flags m (attributes_of v)) }
{
    let held = v.attributes;
    let attributes = counted(&held, v.attribute_count);
    mask::mask_where(attributes.len() as u32, |i| {
        mask::test(m, attributes[i as usize].buffer_index)
    })
}

// What a draw's slots come to: how many commands, the slots or attributes that get one, the dirty
// mask after them, the slots that lost their bit, and whether a product or sum leaves its field.
#[derive(Clone, Copy)]
pub struct Prepared {
    pub count: u32,
    pub places: u32,
    pub dirty: u32,
    pub cleared: u32,
    pub over: bool,
}

pub fn prepare(caps: PrivateCapabilities, v: VertexState, w: u32) -> Prepared
    ensures { (result.count ≡ length (prepared caps v w))
        × (result.places ≡ prepared_places caps v w)
        × (result.dirty ≡ (prepared_state caps v w).dirty_vbuf_mask)
        × (result.cleared ≡ cleared caps v w)
        × (result.over ≡ prepared_over caps v w) }
{
    let dirty = woken(v, w);
    let m = dirty & v.described & v.bound;
    if caps.vertex_buffer_layout {
        Prepared {
            count: mask::count(m),
            places: m,
            dirty: mask::without(dirty, m),
            cleared: m,
            over: slots_over(v, w, m),
        }
    } else {
        let sweep = sweep_attributes(v, w, m);
        Prepared {
            count: sweep.count,
            places: sent_attributes(v, m),
            dirty: mask::without(dirty, sweep.slots),
            cleared: sweep.slots,
            over: sweep.over,
        }
    }
}

// The numbers of the slots after a draw: those of m remember its instance.
pub fn remembered(instances: [u32; MAX_VERTEX_BUFFERS], m: u32, w: u32) -> [u32; MAX_VERTEX_BUFFERS]
    ensures { result ≡ remembered_of instances m w }
{
    if m == 0 {
        return instances;
    }
    array::from_fn(|i| {
        if mask::test(m, i as u32) {
            w
        } else {
            instances[i]
        }
    })
}
