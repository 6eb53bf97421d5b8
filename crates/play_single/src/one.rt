// A call of one command or none that is planned: the command is printed with its place in the list,
// and the answer is handed on.
use calls::batch::Batch;
use played::print::Printer;
use records::state::{Answer, State};
use single_calls::one::{OnePlan, one_answer};
use std::io::Write;

pub(crate) fn played_one<W: Write>(out: &mut Printer<W>, plan: OnePlan, s: State) -> Answer {
    // Not put_batch: no plan of one command says that it has no more than one.
    let batch = plan.batch;
    if 0 < batch.n {
        out.put_command(batch.at as u64, batch.command(0));
    }
    one_answer(plan, s)
}
