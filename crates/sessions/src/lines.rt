// Lines of what a reader gives, through a buffer. A read that fails is the end of the input.
ghost use Rattle.std.specs.Prelude.{◌≡◌, ◌≤◌, length, false, IfSome, MatchResult};
ghost use Rattle.sessions.specs.Reading.{next_number, verdict_of};

use flat::line::{Line, Wanted, Wrong};
use std::io::Read;

// More turns than a loop that ends needs.
pub const MAX_TURNS: usize = 18446744073709551615;

// A line without its end, whether it was longer than that, and its number from 1.
#[derive(Clone, Copy)]
pub struct Text<'a> {
    pub bytes: &'a [u8],
    pub long: bool,
    pub number: u64,
}

impl<'a> Text<'a> {
    // A line that is too long is wrong where it does not fit any more.
    fn verdict(&self) -> Result<(), Wrong>
        ensures { result ≡ verdict_of self.now.long (length self.now.bytes.now) }
    {
        if self.long {
            return Err(Wrong {
                at: self.bytes.len(),
                wanted: Wanted::End,
            });
        }
        Ok(())
    }

    // The line to be read, where it is there as a whole.
    pub fn whole(&self) -> Result<Line<'a>, Wrong>
        ensures { MatchResult result
            (λ _. verdict_of self.now.long (length self.now.bytes.now) ≡ Ok tt)
            (λ w. verdict_of self.now.long (length self.now.bytes.now) ≡ Err w) }
    {
        self.verdict()?;
        Ok(Line::new(self.bytes))
    }
}

// The unread part of the buffer, and how many lines were read.
#[derive(Drop)]
pub struct Lines<'a, R> {
    reader: R,
    buffer: &'a mut [u8],
    line: &'a mut [u8],
    start: usize,
    end: usize,
    number: u64,
    over: bool,
    ghost unread: { (start ≤ end) × (end ≤ length buffer.now) },
}

// How much of a line is read: its length, whether it is longer, and whether its end was read.
#[derive(Clone, Copy)]
struct Part {
    length: usize,
    long: bool,
    whole: bool,
}

impl<'a, R: Read> Lines<'a, R> {
    pub fn new(reader: R, buffer: &'a mut [u8], line: &'a mut [u8]) -> Lines<'a, R>
        ensures none { result.number ≡ 0 }
        ensures unread { (result.start ≡ 0) × (result.end ≡ 0) × (result.over ≡ false) }
    {
        Lines {
            reader,
            buffer,
            line,
            start: 0,
            end: 0,
            number: 0,
            over: false,
        }
    }

    // The next part of the input, where the buffer is read.
    fn fill(&mut self)
        ensures number { self.new.number ≡ self.old.number }
        ensures room { length self.new.line.now ≡ length self.old.line.now }
    {
        if self.end <= self.start {
            self.start = 0;
            self.end = self.reader.read(self.buffer).unwrap_or(0);
            self.over = self.end == 0;
        }
    }

    // What the buffer has of the line, as far as there is room for it.
    fn pull(&mut self, part: Part) -> Part
        requires { part.length ≤ length self.old.line.now }
        ensures length { result.length ≤ length self.old.line.now }
        ensures number { self.new.number ≡ self.old.number }
        ensures room { length self.new.line.now ≡ length self.old.line.now }
    {
        let (start, end) = (self.start, self.end);
        let unread = &self.buffer[start..end];
        let found = unread.iter().position(|b| *b == b'\n');
        let more = &unread[..found.unwrap_or(unread.len())];
        let room = &mut self.line[part.length..];
        let n = more.len().min(room.len());
        room[..n].copy_from_slice(&more[..n]);
        let long = part.long || n < more.len();
        self.start = start + more.len() + found.is_some() as usize;
        Part {
            length: part.length + n,
            long,
            whole: found.is_some(),
        }
    }

    // The next line, which may have no end where it is the last.
    pub fn next(&mut self) -> Option<Text<'_>>
        ensures length { IfSome result (λ t. length t.bytes.now ≤ length self.old.line.now) }
        ensures number { IfSome result (λ t. t.number ≡ next_number self.old.number) }
    {
        let mut part = Part {
            length: 0,
            long: false,
            whole: false,
        };
        for _ in 0..MAX_TURNS {
            if self.over || part.whole {
                break;
            }
            self.fill();
            part = self.pull(part);
        }
        if !part.whole && part.length == 0 {
            return None;
        }
        self.number = self.number.saturating_add(1);
        Some(Text {
            bytes: &self.line[..part.length],
            long: part.long,
            number: self.number,
        })
    }

    // A line that has to be there: where it is not, it is read as an empty one.
    pub fn required(&mut self) -> Text<'_>
        ensures length { length result.bytes.now ≤ length self.old.line.now }
        ensures number { result.number ≡ next_number self.old.number }
    {
        let number = self.number.saturating_add(1);
        self.next().unwrap_or(Text {
            bytes: &[],
            long: false,
            number,
        })
    }
}
