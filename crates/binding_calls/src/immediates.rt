// `set_immediates`. The contract cites Call.antt and Did.antt of `calls`.
ghost use Rattle.calls.specs.Call.{set_immediates};
ghost use Rattle.calls.specs.Did.{Marks};

use crate::sending::{plan_set_immediates, sent_answer, write_bytes};
use calls::batch::record;
use records::command::Record;
use records::pipeline::PrivateCapabilities;
use records::state::{Answer, State};

// Writes `count` words from the byte `offset` on, and sends the words of each descriptor that shares
// a written word or was not sent since the last pipeline call.
// The count beside its run: one above the run is refused (condition 7), which a slice could not
// say.
pub fn set_immediates(
    list: &mut [Record],
    bytes: &mut [u8],
    words: &[u32],
    count: usize,
    caps: PrivateCapabilities,
    s: State,
    offset: u32,
) -> Answer
    ensures { Marks caps s (set_immediates offset (record { run = words.now; count = count })) list.old bytes.old result list.new bytes.new }
{
    let plan = plan_set_immediates(words, list.len(), bytes.len(), count, caps, s, offset);
    write_bytes(bytes, words, plan);
    record(list, &plan.batch);
    sent_answer(plan, s)
}
