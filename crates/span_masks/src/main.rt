// Reads from standard input, again and again, a line `LOWER UPPER` and a session in the flat form
// (tools/oracle/README.md), and prints for the state that the session leaves which slots a draw
// rebinds whose first instance lies from LOWER to UPPER: `always M sometimes N`, or `refused N`.
#![tactic(auto)]

mod answer;

use crate::answer::{put_span, take_bounds};
use flat::line::{Line, Wrong};
use play::line::play;
use played::blocks::Blocks;
use played::print::Printer;
use records::state::State;
use sessions::header::{Header, take_header};
use sessions::lines::{Lines, MAX_TURNS, Text};
use sessions::wrong::WrongLine;
use spans::rebound_span;
use std::io::{Read, Write, sink};

// How many calls a session may have: as many as `script` takes.
const MAX_CALLS: usize = 65536;

// The runs of all sessions, each of which uses as much of them as its first line says.
#[derive(Drop)]
struct Runs<'a> {
    bytes: &'a mut [u8],
    queries: &'a mut [u32],
}

// The call of a line, whose commands nobody reads. The state where it stands: as a part of an answer it
// is copied for each `?`.
fn call(runs: &mut Runs, header: &Header, text: Text, s: &mut State) -> Result<(), Wrong> {
    let mut line = text.whole()?;
    let bytes = header.bytes.min(runs.bytes.len());
    let queries = header.queries.min(runs.queries.len());
    let answer = play(
        &mut Printer::new(sink()),
        header.commands,
        &mut runs.bytes[..bytes],
        &mut runs.queries[..queries],
        &mut line,
        header.caps,
        *s,
    )?;
    *s = answer.state;
    Ok(())
}

// The state that the calls of a session leave.
fn run_calls<R: Read>(
    lines: &mut Lines<R>,
    runs: &mut Runs,
    header: &Header,
) -> Result<State, WrongLine> {
    let mut s = State::new();
    for _ in 0..header.calls {
        let text = lines.required();
        let number = text.number;
        call(runs, header, text, &mut s).map_err(|wrong| WrongLine { number, wrong })?;
    }
    Ok(s)
}

// The next span and its session, where there is one more.
fn next_span<R: Read, W: Write>(
    lines: &mut Lines<R>,
    out: &mut Printer<W>,
    runs: &mut Runs,
) -> Result<bool, WrongLine> {
    let Some(asked) = lines.next() else {
        return Ok(false);
    };
    let number = asked.number;
    let bounds = take_bounds(&mut Line::new(asked.bytes)).map_err(|wrong| WrongLine {
        number,
        wrong,
    })?;
    let first = lines.required();
    let number = first.number;
    let header = take_header(&mut Line::new(first.bytes), MAX_CALLS).map_err(|wrong| WrongLine {
        number,
        wrong,
    })?;
    let s = run_calls(lines, runs, &header)?;
    put_span(
        out,
        rebound_span(header.caps, s, bounds.lower, bounds.upper),
    );
    Ok(true)
}

// Room for the longest line that is read; apart from `main`, whose check would count its bytes.
fn line_room() -> [u8; 524288] {
    [0; 524288]
}

fn main(rt: HostRuntime) {
    let mut buffer = [0u8; 65536];
    let mut line = line_room();
    let mut lines = Lines::new(rt.stdin(), &mut buffer, &mut line);
    let mut block = [0u8; 65536];
    let mut out = Printer::new(Blocks::new(rt.stdout(), &mut block));
    let mut bytes = [0u8; 65536];
    let mut queries = [0u32; 1024];
    let mut runs = Runs {
        bytes: &mut bytes,
        queries: &mut queries,
    };
    for _ in 0..MAX_TURNS {
        match next_span(&mut lines, &mut out, &mut runs) {
            Ok(true) => {}
            Ok(false) => break,
            Err(WrongLine { number, wrong }) => {
                out.put_error(number, &wrong);
                break;
            }
        }
    }
    let _ = out.flush();
}
