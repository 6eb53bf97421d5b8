// What is printed for a line.
use crate::fault::{Expected, Fault, check_command, take_number};
use crate::kinds::{Kind, kind_of};
use crate::words::{Word, Words};
use name_reads::word::{Map, read_word};
use played::print::Printer;
use sessions::lines::Text;
use std::io::Write;

// A field after a blank: a number by its name; where it has none, as it stands.
fn put_field<W: Write>(out: &mut Printer<W>, word: Word, map: Option<Map>) -> Result<(), Fault> {
    let mut name = "";
    if let Some(map) = map {
        name = read_word(map, take_number(word)?);
    }
    let _ = out.write_all(b" ");
    let _ = if name.is_empty() {
        out.write_all(word.bytes)
    } else {
        out.write_all(name.as_bytes())
    };
    Ok(())
}

// The line of a command, in which nothing is wrong.
fn put_command<W: Write>(
    out: &mut Printer<W>,
    line: &[u8],
    fields: &[Option<Map>],
) -> Result<(), Fault> {
    let mut words = Words::new(line);
    let _ = out.write_all(words.next().bytes);
    put_field(out, words.next(), None)?;
    for map in fields {
        put_field(out, words.next(), *map)?;
    }
    let _ = out.write_all(b"\n");
    Ok(())
}

// A line, where it is shown: whole, or with names.
pub(crate) fn show<W: Write>(out: &mut Printer<W>, text: Text) -> Result<(), Fault> {
    let line = text.bytes;
    let Some(kind) = kind_of(line) else {
        return Ok(());
    };
    if text.long {
        return Err(Fault {
            at: line.len(),
            expected: Expected::End,
        });
    }
    match kind {
        Kind::Whole => {
            let _ = out.write_all(line);
            let _ = out.write_all(b"\n");
            Ok(())
        }
        Kind::Command(fields) => {
            check_command(line, fields)?;
            put_command(out, line, fields)
        }
    }
}
