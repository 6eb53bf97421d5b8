// Output by lines. A write that fails is passed over.
ghost use Rattle.std.specs.Prelude.{ℕ, ◌<◌, ◌≡◌, true, false};

use calls::batch::Batch;
use records::command::Command;
use records::state::State;
use state_text::write_state;
use std::fmt::Display;
use std::io;
use std::io::Write;
use text::write_command;

// The longest line of a command, and the longest lines of a state.
const COMMAND_ROOM: usize = 384;

const STATE_ROOM: usize = 65536;

// The digit of a number below 16.
fn hex_digit(n: u8) -> u8 {
    let d = n % 16;
    if d < 10 { b'0' + d } else { b'a' + (d - 10) }
}

// Where the lines go, and whether the line between two lists is due.
#[derive(Drop)]
pub struct Printer<W> {
    writer: W,
    divide: bool,
}

impl<W: Write> Write for Printer<W> {
    fn write(&mut self, text: &[u8]) -> io::Result<usize> {
        self.writer.write(text)
    }

    fn flush(&mut self) -> io::Result<()> {
        self.writer.flush()
    }

    fn write_all(&mut self, text: &[u8]) -> io::Result<()> {
        self.writer.write_all(text)
    }
}

impl<W: Write> Printer<W> {
    pub fn new(writer: W) -> Printer<W>
        ensures { result.divide ≡ false }
    {
        Printer {
            writer,
            divide: false,
        }
    }

    // What was written at the front of `text`.
    fn put_wrote(&mut self, text: &[u8], wrote: Option<usize>) {
        if let Some(written) = wrote.and_then(|n| text.get(..n)) {
            let _ = self.write_all(written);
        }
    }

    fn put_divider(&mut self) {
        if self.divide {
            let _ = self.write_all(b"---\n");
        }
        self.divide = false;
    }

    // A command with its place in the list.
    pub fn put_command(&mut self, number: u64, command: Command) {
        self.put_divider();
        let mut line = [0u8; COMMAND_ROOM];
        let wrote = write_command(&mut line, 0, number, command);
        self.put_wrote(&line, wrote);
    }

    // The commands of a batch, each with its place in the list.
    pub fn put_batch<B: Batch>(&mut self, batch: &B)
        requires { (i : ℕ) → i < B.count_of batch.now → B.Allowed batch.now i }
    {
        let first = batch.at();
        for i in 0..batch.count() {
            self.put_command(first.saturating_add(i) as u64, batch.command(i));
        }
    }

    // Not inlined: where a caller holds the state in parts, it is put together anew for each of its lines.
    #[inline(never)]
    pub fn put_state(&mut self, s: State) {
        let mut lines = [0u8; STATE_ROOM];
        let wrote = write_state(&mut lines, 0, s);
        self.put_wrote(&lines, wrote);
    }

    // The marker bytes of a list. Two digits by hand: a `write!` for each byte takes twice as long.
    pub fn put_bytes(&mut self, bytes: &[u8]) {
        let _ = write!(self, "bytes {}", bytes.len());
        for byte in bytes {
            let text = [b' ', hex_digit(byte / 16), hex_digit(byte % 16)];
            let _ = self.write_all(&text);
        }
        let _ = self.write_all(b"\n");
    }

    // The queries of a list.
    pub fn put_queries(&mut self, queries: &[u32]) {
        let _ = write!(self, "queries {}", queries.len());
        for query in queries {
            let _ = write!(self, " {query}");
        }
        let _ = self.write_all(b"\n");
    }

    // What ends a list that is finished: its marker bytes and its queries. Another list is divided from it.
    pub fn end_list(&mut self, bytes: &[u8], queries: &[u32])
        ensures { self.new.divide ≡ true }
    {
        self.put_divider();
        self.put_bytes(bytes);
        self.put_queries(queries);
        self.divide = true;
    }

    // The calls' answers, numbered from 0.
    pub fn put_answers(&mut self, answers: &[u8]) {
        for (number, answer) in answers.iter().enumerate() {
            let _ = writeln!(self, "answer {number} {answer}");
        }
    }

    // The last line of a session: the next one begins with no divider.
    pub fn end_session(&mut self)
        ensures { self.new.divide ≡ false }
    {
        let _ = self.write_all(b"===\n");
        self.divide = false;
    }

    // What is wrong with a line, counted from 1.
    pub fn put_error<E: Display>(&mut self, line: u64, wrong: &E) {
        let _ = writeln!(self, "error: line {line}: {wrong}");
    }
}
