// What is wrong with a line that is to be printed.
use crate::words::{Word, Words};
use flat::line::Line;
use name_reads::word::Map;
use std::fmt;

#[derive(Clone, Copy)]
pub(crate) enum Expected {
    Number,
    Word,
    End,
}

impl fmt::Display for Expected {
    fn fmt<W: fmt::Write>(&self, f: &mut fmt::Formatter<W>) -> fmt::Result {
        match self {
            Expected::Number => write!(f, "a number from 0 to {}", u32::MAX),
            Expected::Word => f.write_str("a word"),
            Expected::End => f.write_str("the end of the line"),
        }
    }
}

// What was expected, and at which place of the line, from 0.
#[derive(Clone, Copy)]
pub(crate) struct Fault {
    pub at: usize,
    pub expected: Expected,
}

impl fmt::Display for Fault {
    fn fmt<W: fmt::Write>(&self, f: &mut fmt::Formatter<W>) -> fmt::Result {
        let character = self.at.saturating_add(1);
        write!(f, "expected {} at character {character}", self.expected)
    }
}

// A number from 0 to 4294967295, without leading zeros.
pub(crate) fn take_number(word: Word) -> Result<u32, Fault> {
    Line::new(word.bytes).take_u32().map_err(|_| Fault {
        at: word.start,
        expected: Expected::Number,
    })
}

fn check_field(word: Word, map: Option<Map>) -> Result<(), Fault> {
    if map.is_some() {
        take_number(word)?;
    }
    if word.bytes.is_empty() {
        return Err(Fault {
            at: word.start,
            expected: Expected::Word,
        });
    }
    Ok(())
}

// A command's number, name and fields, and the end of the line.
pub(crate) fn check_command(line: &[u8], fields: &[Option<Map>]) -> Result<(), Fault> {
    let mut words = Words::new(line);
    take_number(words.next())?;
    let mut last = words.next();
    for map in fields {
        last = words.next();
        check_field(last, *map)?;
    }
    let end = last.start.saturating_add(last.bytes.len());
    if end < line.len() {
        return Err(Fault {
            at: end,
            expected: Expected::End,
        });
    }
    Ok(())
}
