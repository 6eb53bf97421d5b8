// The beginnings of a render pass and of a compute pass. The label and the queries of the
// timestamps' set are lent with their counts. The contracts cite Call.antt and Did.antt of `calls`.
ghost use Rattle.calls.specs.Call.{begin_render_pass, begin_compute_pass};
ghost use Rattle.calls.specs.Did.{Marks};

use crate::begun_compute::{compute_answer, plan_begin_compute};
use crate::begun_render::{plan_begin_render, render_answer};
use crate::marked::copy_label;
use calls::batch::record;
use records::command::Record;
use records::pass::{RenderPassDescriptor, TimestampWrites};
use records::pipeline::PrivateCapabilities;
use records::state::{Answer, State};

// Flag, run and count, no `Option<&[u8]>`: a count above its run is refused with no label too
// (`label_short`).
pub fn begin_render_pass(
    list: &mut [Record],
    bytes: &mut [u8],
    label: &[u8],
    set: &[u32],
    has_label: bool,
    label_count: usize,
    set_count: usize,
    caps: PrivateCapabilities,
    s: State,
    d: RenderPassDescriptor,
) -> Answer
    ensures { Marks caps s (begin_render_pass d (record { present = has_label; bytes = record { run = label.now; count = label_count } }) (record { run = set.now; count = set_count })) list.old bytes.old result list.new bytes.new }
{
    let plan = plan_begin_render(
        set,
        list.len(),
        bytes.len(),
        label.len(),
        has_label,
        label_count,
        set_count,
        caps,
        s,
        d,
    );
    copy_label(bytes, label, plan.put, plan.size);
    record(list, &plan.batch);
    render_answer(plan, s)
}

pub fn begin_compute_pass(
    list: &mut [Record],
    bytes: &mut [u8],
    label: &[u8],
    set: &[u32],
    has_label: bool,
    label_count: usize,
    set_count: usize,
    caps: PrivateCapabilities,
    s: State,
    t: Option<TimestampWrites>,
) -> Answer
    ensures { Marks caps s (begin_compute_pass t (record { present = has_label; bytes = record { run = label.now; count = label_count } }) (record { run = set.now; count = set_count })) list.old bytes.old result list.new bytes.new }
{
    let plan = plan_begin_compute(
        set,
        list.len(),
        bytes.len(),
        label.len(),
        has_label,
        label_count,
        set_count,
        caps,
        s,
        t,
    );
    copy_label(bytes, label, plan.put, plan.size);
    record(list, &plan.batch);
    compute_answer(plan, s)
}
