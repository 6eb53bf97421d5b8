// Plans, and what is recorded by one. The contracts cite specs/Planned.antt.
ghost use Rattle.std.specs.Prelude.{ℕ, ◌+◌, ◌<◌, ◌≤◌, ◌≡◌, get_or, length};
ghost use Rattle.walks.specs.Fill.{filled};
ghost use Rattle.walk_forms.specs.Filled.{rec_of, number_at, NumberFits, read_at, ReadFits};
ghost use Rattle.walk_forms.specs.Planned.{goes, plan_if, both_go, planned, planned_beside, reading, answer_of, answer_from, laid, laid_from, copied, Copies, Beside};

use crate::fills::{Batch, Rec, Window, at_of, count_of, fill, fill_from};

#[derive(Clone, Copy)]
pub struct Plan {
    pub batch: Batch,
    pub ok: bool,
}

#[derive(Clone, Copy)]
pub struct Reading {
    pub window: Window,
    pub ok: bool,
}

// How many records were there, how many were written, and whether there was room.
#[derive(Clone, Copy)]
pub struct Answer {
    pub used: usize,
    pub wrote: usize,
    pub ok: bool,
}

pub fn batch_of(plan: Plan) -> Batch
    ensures { result ≡ plan.batch }
{
    plan.batch
}

pub fn start_of(b: Batch) -> usize
    ensures { result ≡ b.at }
{
    b.at
}

pub fn length_of(b: Batch) -> usize
    ensures { result ≡ b.n }
{
    b.n
}

pub fn record_plan(list: &mut [Rec], plan: Plan)
    requires { (plan.batch.at + plan.batch.n ≤ length list.old) × ((i : ℕ) → i < plan.batch.n → NumberFits plan.batch i) }
    ensures { list.new ≡ laid plan list.old }
{
    let batch = batch_of(plan);
    let at = start_of(batch);
    let n = length_of(batch);
    fill(list, at, n, batch);
}

pub fn window_of(plan: Reading) -> Window
    ensures { result ≡ plan.window }
{
    plan.window
}

pub fn record_from(list: &mut [Rec], run: &[u32], plan: Reading)
    requires { (plan.window.at + plan.window.n ≤ length list.old) × ((i : ℕ) → i < plan.window.n → ReadFits run.now plan.window i) }
    ensures { list.new ≡ laid_from run.now plan list.old }
{
    let window = window_of(plan);
    let at = at_of(window);
    let n = count_of(window);
    fill_from(list, run, at, n, window);
}

pub fn goes(room: usize, from: usize, count: usize) -> bool
    ensures { result ≡ goes room from count }
{
    from <= room && count <= room - from
}

pub fn plan_if(ok: bool, first: u32, used: usize, count: usize) -> Plan
    ensures { result ≡ plan_if ok first used count }
{
    if ok {
        Plan {
            batch: Batch {
                at: used,
                n: count,
                first,
            },
            ok: true,
        }
    } else {
        Plan {
            batch: Batch {
                at: 0,
                n: 0,
                first: 0,
            },
            ok: false,
        }
    }
}

pub fn both_go(room: usize, first: u32, used: usize, count: usize) -> bool
    ensures { result ≡ both_go room first used count }
{
    let listed = goes(room, used, count);
    let numbered = goes(4294967296, first as usize, count);
    listed && numbered
}

pub fn plan_numbers(room: usize, first: u32, used: usize, count: usize) -> Plan
    ensures { result ≡ planned room first used count }
{
    let ok = both_go(room, first, used, count);
    plan_if(ok, first, used, count)
}

pub fn answer_to(plan: Plan, used: usize) -> Answer
    ensures { result ≡ answer_of plan used }
{
    Answer {
        used,
        wrote: plan.batch.n,
        ok: plan.ok,
    }
}

// Numbers from `first` on, behind the used records.
pub fn numbers(list: &mut [Rec], first: u32, used: usize, count: usize) -> Answer
    ensures { (result ≡ answer_of (planned (length list.old) first used count) used) × (list.new ≡ laid (planned (length list.old) first used count) list.old) }
{
    let plan = plan_numbers(list.len(), first, used, count);
    record_plan(list, plan);
    answer_to(plan, used)
}

pub fn read_or_zero(set: &[u32], k: usize) -> u32
    ensures { result ≡ get_or set.now k 0 }
{
    if k < set.len() { set[k] } else { 0 }
}

pub fn plan_set(set: &[u32], room: usize, k: usize, used: usize, count: usize) -> Plan
    ensures { result ≡ planned room (get_or set.now k 0) used count }
{
    let first = read_or_zero(set, k);
    plan_numbers(room, first, used, count)
}

// As `numbers`, from the k-th number of a set on.
pub fn numbers_of(list: &mut [Rec], set: &[u32], k: usize, used: usize, count: usize) -> Answer
    ensures { (result ≡ answer_of (planned (length list.old) (get_or set.now k 0) used count) used) × (list.new ≡ laid (planned (length list.old) (get_or set.now k 0) used count) list.old) }
{
    let plan = plan_set(set, list.len(), k, used, count);
    record_plan(list, plan);
    answer_to(plan, used)
}

pub fn plan_run(run: &[u32], room: usize, from: usize, used: usize, count: usize) -> Reading
    ensures { result ≡ reading room (length run.now) from used count }
{
    let listed = goes(room, used, count);
    let there = goes(run.len(), from, count);
    if listed && there {
        Reading {
            window: Window {
                at: used,
                n: count,
                from,
            },
            ok: true,
        }
    } else {
        Reading {
            window: Window {
                at: 0,
                n: 0,
                from: 0,
            },
            ok: false,
        }
    }
}

pub fn answer_from(plan: Reading, used: usize) -> Answer
    ensures { result ≡ answer_from plan used }
{
    Answer {
        used,
        wrote: plan.window.n,
        ok: plan.ok,
    }
}

// The numbers of a run, from a place on, behind the used records.
pub fn numbers_from(list: &mut [Rec], run: &[u32], from: usize, used: usize, count: usize) -> Answer
    ensures { (result ≡ answer_from (reading (length list.old) (length run.now) from used count) used) × (list.new ≡ laid_from run.now (reading (length list.old) (length run.now) from used count) list.old) }
{
    let plan = plan_run(run, list.len(), from, used, count);
    record_from(list, run, plan);
    answer_from(plan, used)
}

pub fn plan_beside(
    room: usize,
    run_room: usize,
    load: usize,
    first: u32,
    used: usize,
    count: usize,
) -> Plan
    ensures { result ≡ planned_beside room run_room load first used count }
{
    let listed = both_go(room, first, used, count);
    let one = 0 < run_room && 0 < load;
    plan_if(listed && one, first, used, count)
}

pub fn byte_or_zero(load: &[u8]) -> u8
    ensures { result ≡ get_or load.now 0 0 }
{
    if 0 < load.len() { load[0] } else { 0 }
}

pub fn plan_load(load: &[u8], room: usize, run_room: usize, used: usize, count: usize) -> Plan
    ensures { result ≡ planned_beside room run_room (length load.now) (get_or load.now 0 0) used count }
{
    let first = byte_or_zero(load);
    plan_beside(room, run_room, load.len(), first as u32, used, count)
}

pub fn copy_byte(run: &mut [u8], load: &[u8], plan: Plan)
    requires { Copies load.now plan (length run.old) }
    ensures { run.new ≡ copied load.now plan run.old }
{
    if plan.ok {
        run[0] = load[0];
    }
}

// As `numbers`, from a load's first byte on, which is copied into the run.
pub fn numbers_beside(
    list: &mut [Rec],
    run: &mut [u8],
    load: &[u8],
    used: usize,
    count: usize,
) -> Answer
    ensures { Beside (planned_beside (length list.old) (length run.old) (length load.now) (get_or load.now 0 0) used count) load.now used list.old run.old list.new run.new result }
{
    let plan = plan_load(load, list.len(), run.len(), used, count);
    copy_byte(run, load, plan);
    record_plan(list, plan);
    answer_to(plan, used)
}

pub fn plan_past(
    set: &[u32],
    room: usize,
    run_room: usize,
    load: usize,
    k: usize,
    used: usize,
    count: usize,
) -> Plan
    ensures { result ≡ planned_beside room run_room load (get_or set.now k 0) used count }
{
    let first = read_or_zero(set, k);
    plan_beside(room, run_room, load, first, used, count)
}

// As `numbers_of`, and a load's first byte is copied into the run.
pub fn numbers_past(
    list: &mut [Rec],
    run: &mut [u8],
    load: &[u8],
    set: &[u32],
    k: usize,
    used: usize,
    count: usize,
) -> Answer
    ensures { Beside (planned_beside (length list.old) (length run.old) (length load.now) (get_or set.now k 0) used count) load.now used list.old run.old list.new run.new result }
{
    let plan = plan_past(set, list.len(), run.len(), load.len(), k, used, count);
    copy_byte(run, load, plan);
    record_plan(list, plan);
    answer_to(plan, used)
}
