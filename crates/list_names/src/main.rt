// Reads what `script` prints (tools/oracle/README.md, 'Output grammar') and prints of it the commands
// that set a pipeline's state or draw, with WebGPU's names in place of GL numbers, the lines between
// lists and after sessions, and error lines. A number that has no name stays as it is.
#![tactic(auto)]

mod fault;
mod kinds;
mod shown;
mod words;

use crate::shown::show;
use played::blocks::Blocks;
use played::print::Printer;
use sessions::lines::{Lines, MAX_TURNS};
use std::io::Write;

// No line that `script` prints and that is shown has more than 130 characters; `line` holds 512.
// The loop is that of `cheaper_draws` too: as one function it takes a closure over two lent values
// and an error type.
fn main(rt: HostRuntime) {
    let mut buffer = [0u8; 65536];
    let mut line = [0u8; 512];
    let mut lines = Lines::new(rt.stdin(), &mut buffer, &mut line);
    let mut block = [0u8; 65536];
    let mut out = Printer::new(Blocks::new(rt.stdout(), &mut block));
    for _ in 0..MAX_TURNS {
        let Some(text) = lines.next() else {
            break;
        };
        if let Err(fault) = show(&mut out, text) {
            out.put_error(text.number, &fault);
            break;
        }
    }
    let _ = out.flush();
}
