// A command as a line of text: the printed form of tools/oracle/README.md. The contracts cite
// specs/Command.antt for the line, and specs/Wrote.antt for what is done with it.
#![tactic(auto)]

ghost use Rattle.std.specs.Prelude.{◌≡◌, ◌≤◌, length, drop};
ghost use Rattle.text.specs.Command.{line_of};
ghost use Rattle.text.specs.Wrote.{pasted, wrote_of};

pub mod field;
pub mod put;
pub mod shown;

use crate::put::put_line;
use crate::shown::shown;
use records::command::Command;

// Writes a command's line into `out` from `at` on, whole or not at all: where the next line may begin, or
// there was no room for this one.
// Into lent bytes, no `Display`: `pasted` and `wrote_of` promise the run and the place (no heap).
pub fn write_command(out: &mut [u8], at: usize, number: u64, command: Command) -> Option<usize>
    ensures { (out.new ≡ pasted out.old at (line_of number command)) × (result ≡ wrote_of out.old at (line_of number command)) }
{
    let told = shown(command);
    let mut line = [0u8; 384];
    let start = put_line(&mut line, number, told);
    paste(out, at, &line, start)
}

// Copies what stands in `line` from `start` on into `out` from `at` on, whole or not at all.
pub fn paste(out: &mut [u8], at: usize, line: &[u8], start: usize) -> Option<usize>
    requires { start ≤ length line.now }
    ensures { (out.new ≡ pasted out.old at (drop start line.now)) × (result ≡ wrote_of out.old at (drop start line.now)) }
{
    let text = &line[start..];
    if out.len() < at || out.len() - at < text.len() {
        return None;
    }
    let end = at + text.len();
    out[at..end].copy_from_slice(text);
    Some(end)
}
