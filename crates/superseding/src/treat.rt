// A list without the settings that a later one supersedes. The contracts cite specs/Treated.antt.
ghost use Rattle.std.specs.Prelude.{◌≡◌, ◌++◌, ◌≤◌, length, take, drop};
ghost use Rattle.list_walks.specs.Back.{fold_back, map_back};
ghost use Rattle.list_walks.specs.Sift.{sifted, over};
ghost use Rattle.superseding.specs.Seen.{blanked_by, look_back, stays_of};
ghost use Rattle.superseding.specs.Treated.{blank_of, upto_of, answer_of, Treats};

use crate::seen::{Seen, is_seen, mark_of, nothing_seen, seen_before};
use lists::class::class_of;
use lists::limits::{Surveyed, Used, breaks_of, is_broken, refusal_of, survey};
use records::command::{Command, Record};
use records::outcome::Outcome;

// Document 01's answer, and how many commands the list has now: its count where it is turned away, so
// no value that a refusal leaves out (the contract `Treats` names both).
#[derive(Clone, Copy)]
pub struct Treated {
    pub outcome: Outcome,
    pub commands: usize,
}

// It stands for a setting that is taken out: a command out of range, that no list within the limits
// has.
fn blank() -> Record
    ensures { result ≡ blank_of }
{
    Record {
        command: Command::UnsetVertexAttribute(16),
    }
}

// The record, or a blank where what is seen after it supersedes it.
fn blanked(seen: Seen, i: usize, x: Record) -> Record
    ensures { result ≡ blanked_by seen i x }
{
    if is_seen(seen, mark_of(class_of(x.command))) {
        blank()
    } else {
        x
    }
}

fn look_back(seen: Seen, i: usize, x: Record) -> Seen
    ensures { result ≡ look_back seen i x }
{
    seen_before(seen, class_of(x.command))
}

// Blanks for the settings that are superseded among the first n records, from the last to the first.
// `n` beside the list, no part of it: the clause says of the whole run what the rest keeps. So
// `retain`.
fn blank_superseded(list: &mut [Record], n: usize, acc: Seen) -> Seen
    requires { n ≤ length list.old }
    ensures { (result ≡ fold_back look_back acc 0 (take n list.old)) × (list.new ≡ map_back blanked_by look_back acc 0 (take n list.old) ++ drop n list.old) }
{
    let mut a = acc;
    for i in (0..n).rev() {
        let r = list[i];
        list[i] = blanked(a, i, r);
        a = look_back(a, i, r);
    }
    a
}

// It is no blank.
fn stays(x: Record) -> bool
    ensures { result ≡ stays_of x }
{
    let unused = Used {
        commands: 0,
        bytes: 0,
        queries: 0,
    };
    !breaks_of(unused, x.command).range
}

// What is no blank of the first n records, moved to the front; and how many these are.
// A place counted by hand: std's `retain` is `Vec`'s, and the list is a lent slice.
fn retain(list: &mut [Record], n: usize) -> usize
    requires { n ≤ length list.old }
    ensures { (result ≡ length (sifted stays_of (take n list.old))) × (list.new ≡ over (sifted stays_of (take n list.old)) list.old) }
{
    let mut j: usize = 0;
    for i in 0..n {
        let r = list[i];
        if stays(r) {
            list[j] = r;
            j += 1;
        }
    }
    j
}

// How many records are treated: none of a list that breaks a limit.
fn upto(s: Surveyed) -> usize
    ensures { result ≡ upto_of s }
{
    let used = s.used;
    if is_broken(s.breaks) {
        0
    } else {
        used.commands
    }
}

fn answer(s: Surveyed, left: usize) -> Treated
    ensures { result ≡ answer_of s left }
{
    let used = s.used;
    let outcome = refusal_of(s.breaks);
    let commands = if is_broken(s.breaks) {
        used.commands
    } else {
        left
    };
    Treated { outcome, commands }
}

// Takes out each setting that a later one supersedes: what is left stands in front, in its order, and
// the answer has its count. A list that breaks a limit is turned away and left as it was.
pub fn take_out_superseded(list: &mut [Record], used: Used) -> Treated
    ensures { Treats list.old used list.new result }
{
    let s = survey(list, used);
    let n = upto(s);
    let none = nothing_seen();
    let first = blank_superseded(list, n, none);
    let left = retain(list, n);
    answer(s, left)
}
