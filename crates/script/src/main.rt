// Reads sessions in the flat form from standard input, one after another, and prints for each its
// lists, its state and its answers: the form of tools/oracle/README.md.
#![tactic(auto)]

mod run;

use crate::run::Session;
use flat::line::Line;
use played::blocks::Blocks;
use played::print::Printer;
use sessions::header::take_header;
use sessions::lines::{Lines, MAX_TURNS};
use sessions::wrong::WrongLine;
use std::io::{Read, Write};

// The next session, where there is one more: its calls, what ends it, and its last line.
fn session<R: Read, W: Write>(
    lines: &mut Lines<R>,
    out: &mut Printer<W>,
    bytes: &mut [u8],
    queries: &mut [u32],
    answers: &mut [u8],
) -> Result<bool, WrongLine> {
    let Some(first) = lines.next() else {
        return Ok(false);
    };
    let number = first.number;
    let header = take_header(&mut Line::new(first.bytes), answers.len()).map_err(|wrong| WrongLine {
        number,
        wrong,
    })?;
    let marked = header.bytes.min(bytes.len());
    let asked = header.queries.min(queries.len());
    let mut session = Session::new(header, &mut bytes[..marked], &mut queries[..asked], answers);
    let played = play_lines(lines, out, &mut session, header.calls);
    session.put_end(out);
    played?;
    out.end_session();
    Ok(true)
}

// The calls of a session, up to the first line that is wrong.
fn play_lines<R: Read, W: Write>(
    lines: &mut Lines<R>,
    out: &mut Printer<W>,
    session: &mut Session,
    calls: usize,
) -> Result<(), WrongLine> {
    for _ in 0..calls {
        let text = lines.required();
        let number = text.number;
        session
            .call(out, text)
            .map_err(|wrong| WrongLine { number, wrong })?;
    }
    Ok(())
}

// Room for the longest line that is read; apart from `main`, whose check would count its bytes.
fn line_room() -> [u8; 524288] {
    [0; 524288]
}

fn main(rt: HostRuntime) {
    let mut buffer = [0u8; 65536];
    let mut line = line_room();
    let mut lines = Lines::new(rt.stdin(), &mut buffer, &mut line);
    let mut block = [0u8; 65536];
    let mut out = Printer::new(Blocks::new(rt.stdout(), &mut block));
    let mut bytes = [0u8; 65536];
    let mut queries = [0u32; 1024];
    let mut answers = [0u8; 65536];
    for _ in 0..MAX_TURNS {
        match session(&mut lines, &mut out, &mut bytes, &mut queries, &mut answers) {
            Ok(true) => {}
            Ok(false) => break,
            Err(WrongLine { number, wrong }) => {
                out.put_error(number, &wrong);
                break;
            }
        }
    }
    let _ = out.flush();
}
