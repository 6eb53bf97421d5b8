// The state as lines of text: the printed form of tools/oracle/README.md. The contracts cite
// specs/State.antt for the lines, and text/specs/Wrote.antt for what is done with them.
#![tactic(auto)]

ghost use Rattle.std.specs.Prelude.{◌≡◌, ◌+◌, ◌≤◌, length};
ghost use Rattle.text.specs.Wrote.{laid, pasted, wrote_of};
ghost use Rattle.state_text.specs.State.{state_line, state_text};

mod bind;
mod fixed;
mod immediates;
mod pass;
mod rows;
mod state;
mod vertex;

use crate::state::{put_state_line, state_length};
use records::state::State;
use text::paste;

// How many places the state's lines have: the lines are numbered from 0 to 374.
pub const STATE_PLACES: u32 = 375;

// Writes the state's line k, where it is there, into `out` from `at` on, whole or not at all.
pub(crate) fn write_state_line(out: &mut [u8], at: usize, s: &State, k: u32) -> Option<usize>
    ensures { (out.new ≡ pasted out.old at (state_line s.now k)) × (result ≡ wrote_of out.old at (state_line s.now k)) }
{
    let mut line = [0u8; 384];
    let start = put_state_line(&mut line, s, k);
    paste(out, at, &line, start)
}

// Writes the state's lines into `out` from `at` on, whole or not at all.
pub fn write_state(out: &mut [u8], at: usize, s: State) -> Option<usize>
    ensures { (out.new ≡ pasted out.old at (state_text s)) × (result ≡ wrote_of out.old at (state_text s)) }
{
    let total = state_length(&s);
    if out.len() < at || out.len() - at < total {
        return None;
    }
    Some(write_lines(out, at, &s))
}

// The state's lines, where there is room for them. The state is lent: by value it is copied for each line.
fn write_lines(out: &mut [u8], at: usize, s: &State) -> usize
    requires { at + length (state_text s.now) ≤ length out.old }
    ensures { (out.new ≡ laid out.old at (state_text s.now)) × (result ≡ at + length (state_text s.now)) }
{
    let mut i = at;
    for k in 0..STATE_PLACES {
        i = write_next(out, i, s, k);
    }
    i
}

// The state's line k, where there is room for it.
fn write_next(out: &mut [u8], at: usize, s: &State, k: u32) -> usize
    requires { at + length (state_line s.now k) ≤ length out.old }
    ensures { (out.new ≡ laid out.old at (state_line s.now k)) × (result ≡ at + length (state_line s.now k)) }
{
    write_state_line(out, at, s, k).unwrap_or(at)
}
