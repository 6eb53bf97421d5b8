// The words of a line, one blank between two.
ghost use Rattle.std.specs.Prelude.{◌≤◌, length};

// A word and its first place in the line. A missing word is empty and lies at the line's end.
#[derive(Clone, Copy)]
pub(crate) struct Word<'a> {
    pub start: usize,
    pub bytes: &'a [u8],
}

// The line, and where the next word begins.
#[derive(Drop)]
pub(crate) struct Words<'a> {
    line: &'a [u8],
    at: usize,
    ghost within: { at ≤ length line.now },
}

impl<'a> Words<'a> {
    pub(crate) fn new(line: &'a [u8]) -> Words<'a> {
        Words { line, at: 0 }
    }

    pub(crate) fn next(&mut self) -> Word<'a> {
        let start = self.at;
        let rest = &self.line[start..];
        let length = rest.iter().position(|b| *b == b' ').unwrap_or(rest.len());
        let blank = (length < rest.len()) as usize;
        self.at = start + length + blank;
        Word {
            start,
            bytes: &rest[..length],
        }
    }
}
