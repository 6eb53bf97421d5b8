// Lists of numbers, read into a lent run; a list that the run has no room for is wrong.
ghost use Rattle.std.specs.Prelude.{◌*◌, ◌≤◌, length, IfOk};

use crate::line::{Line, Wrong};
use crate::small::take_buffer;

fn take_run<'a, T, F: FnMut(&mut Line<'a>) -> Result<T, Wrong>>(
    line: &mut Line<'a>,
    out: &mut [T],
    mut take: F,
) -> Result<usize, Wrong>
where
    T: Drop,
    requires { F.IsAlwaysCallable take }
    ensures { IfOk result (λ n. n ≤ length out.old) }
{
    let n = line.take_count(out.len())?;
    for element in &mut out[..n] {
        *element = take(line)?;
    }
    Ok(n)
}

pub fn take_numbers(line: &mut Line, out: &mut [u32]) -> Result<usize, Wrong>
    ensures { IfOk result (λ n. n ≤ length out.old) }
{
    take_run(line, out, |l| l.take_u32())
}

pub(crate) fn take_bytes(line: &mut Line, out: &mut [u8]) -> Result<usize, Wrong>
    ensures { IfOk result (λ n. n ≤ length out.old) }
{
    take_run(line, out, |l| l.take_u8())
}

// Three numbers for each barrier: the buffer's, and its uses before and after. No one reader of N
// numbers has this and the next two: in a proof no bound of a closure may name a const parameter.
pub fn take_barriers(line: &mut Line, out: &mut [u32]) -> Result<usize, Wrong>
    ensures { IfOk result (λ n. 3 * n ≤ length out.old) }
{
    let n = line.take_count(out.len() / 3)?;
    let (barriers, _) = out[..3 * n].as_chunks_mut::<3>();
    for barrier in barriers {
        let buffer = take_buffer(line)?;
        let from = line.take_u16()? as u32;
        let to = line.take_u16()? as u32;
        *barrier = [buffer.raw, from, to];
    }
    Ok(n)
}

// Two numbers for each texture barrier: its uses before and after.
pub fn take_uses(line: &mut Line, out: &mut [u32]) -> Result<usize, Wrong>
    ensures { IfOk result (λ n. 2 * n ≤ length out.old) }
{
    let n = line.take_count(out.len() / 2)?;
    let (barriers, _) = out[..2 * n].as_chunks_mut::<2>();
    for uses in barriers {
        let from = line.take_u16()? as u32;
        let to = line.take_u16()? as u32;
        *uses = [from, to];
    }
    Ok(n)
}

// Three numbers for each copy: the source's offset, the destination's and the size.
pub fn take_regions(line: &mut Line, out: &mut [u64]) -> Result<usize, Wrong>
    ensures { IfOk result (λ n. 3 * n ≤ length out.old) }
{
    let n = line.take_count(out.len() / 3)?;
    let (regions, _) = out[..3 * n].as_chunks_mut::<3>();
    for region in regions {
        let from = line.take_u64()?;
        let to = line.take_u64()?;
        let size = line.take_u64()?;
        *region = [from, to, size];
    }
    Ok(n)
}

// A query set: its target, and its queries into the run.
#[derive(Clone, Copy)]
pub struct QuerySet {
    pub target: u32,
    pub count: usize,
}

pub fn take_set(line: &mut Line, out: &mut [u32]) -> Result<QuerySet, Wrong>
    ensures { IfOk result (λ set. set.count ≤ length out.old) }
{
    let target = line.take_u32()?;
    let count = take_numbers(line, out)?;
    Ok(QuerySet { target, count })
}
