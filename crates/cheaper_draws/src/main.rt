// Reads from standard input lines `BUDGET COUNT` with eighteen numbers for each of COUNT pieces (a
// pipeline, sixteen slot buffers, an index buffer), and prints for each the cheapest order of draws
// within the budget: `price P floor F order A B C`, or `refused N` (document 02, request 10).
#![tactic(auto)]

mod answer;
mod line;

use crate::answer::put_cheaper;
use crate::line::take_question;
use cheaper::search::cheaper_order;
use flat::line::Wrong;
use played::blocks::Blocks;
use played::print::Printer;
use sessions::lines::{Lines, MAX_TURNS, Text};
use std::io::Write;

// The answer to a line.
fn put_answer<W: Write>(out: &mut Printer<W>, text: Text) -> Result<(), Wrong> {
    let mut line = text.whole()?;
    let question = take_question(&mut line)?;
    let cheaper = cheaper_order(question.pieces, question.budget);
    put_cheaper(out, cheaper, question.pieces.count);
    Ok(())
}

// A right line has at most 12,685 characters: a budget of ten digits, a count of two, and 64 times
// eighteen numbers of ten, one blank between two. `line` holds 16,384.
// The loop is that of `list_names` too: as one function it takes a closure over two lent values and
// an error type.
fn main(rt: HostRuntime) {
    let mut buffer = [0u8; 65536];
    let mut line = [0u8; 16384];
    let mut lines = Lines::new(rt.stdin(), &mut buffer, &mut line);
    let mut block = [0u8; 65536];
    let mut out = Printer::new(Blocks::new(rt.stdout(), &mut block));
    for _ in 0..MAX_TURNS {
        let Some(text) = lines.next() else {
            break;
        };
        if let Err(wrong) = put_answer(&mut out, text) {
            out.put_error(text.number, &wrong);
            break;
        }
    }
    let _ = out.flush();
}
