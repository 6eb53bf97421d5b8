// What both kinds of pass begin with, by place: the timestamp and the label. The contracts cite
// specs/Marks.antt.
ghost use Rattle.std.specs.Prelude.{ℕ, ◌+◌, ◌^◌, ◌<◌, ◌≤◌, ◌≡◌, List, ◌++◌, length, get_or};
ghost use Rattle.mask.specs.Mask.{digit_of};
ghost use Rattle.records.specs.declared.command.Command.TheVariants.{PushDebugGroup};
ghost use Rattle.slots.specs.Place.{Stands};
ghost use Rattle.pass.specs.Marks.{Lent, timestamp, push_label};
ghost use Rattle.pass.specs.Places.{no_command};

use bindings::group::one_if;
use records::check::within;
use records::command::{Command, RangeU32};

pub(crate) fn stamp_count(q: Option<u32>) -> u32
    ensures { (result ≡ length (timestamp q)) × (result ≤ 1) }
{
    q.is_some() as u32
}

// The timestamp of a query, where there is one.
pub(crate) fn stamp_command(q: Option<u32>) -> Command
    ensures { result ≡ get_or (timestamp q) 0 no_command }
{
    q.map_or(Command::PopDebugGroup, |n| Command::TimestampQuery(n))
}

// The label's bytes from the place at on.
fn push_label(at: usize, bytes: usize) -> Command
    ensures { at + bytes < 2 ^ 32 → result ≡ PushDebugGroup (record { start = at; end = at + bytes }) }
{
    let start = within(at, 0xffffffff);
    let end = start + within(bytes, 0xffffffff - start);
    let range = RangeU32 {
        start: start as u32,
        end: end as u32,
    };
    Command::PushDebugGroup(range)
}

// How many there are.
pub fn opening_count(query: Option<u32>, label: bool) -> u32
    ensures { (result ≡ length (timestamp query) + digit_of label) × (result ≤ 2) × ((bytes : Lent) (at : ℕ) → result ≡ length (timestamp query ++ push_label (record { present = label; bytes = bytes }) at)) }
{
    stamp_count(query) + one_if(label)
}

// Command number k of them.
pub fn opening_at(query: Option<u32>, label: bool, at: usize, bytes: usize, k: u32) -> Command
    ensures { (run : List ℕ) → at + bytes < 2 ^ 32 → Stands result k (timestamp query ++ push_label (record { present = label; bytes = record { run = run; count = bytes } }) at) }
{
    if k < stamp_count(query) {
        stamp_command(query)
    } else {
        push_label(at, bytes)
    }
}
