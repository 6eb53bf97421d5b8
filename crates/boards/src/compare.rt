// Two lists, compared draw by draw: one loop that plays them side by side.
ghost use Rattle.std.specs.Prelude.{◌≡◌, get_or};
ghost use Rattle.lists.specs.Limits.{handed};
ghost use Rattle.boards.specs.Alike.{same_bits};
ghost use Rattle.boards.specs.Compared.{number};
ghost use Rattle.boards.specs.Remains.{Answered};
ghost use Rattle.boards.specs.Side.{no_record, first_answer, turns_of, first_side, start_of, has_more, advanced, one_more, told, at_draws, turn_of};

use crate::alike::alike;
use crate::settings::{Settings, place};
use lists::class::{class_of, is_draw};
use lists::limits::{Surveyed, Used, survey};
use records::check::within;
use records::command::{Command, Record};
use records::limits::MAX_COMMANDS;

// One enum, since the theorem `TwoBoards` and `compared` (specs/Compared.antt) name these answers.
#[derive(Clone, Copy, Debug, PartialEq, Eq)]
pub enum Compared {
    // Every draw fetches alike.
    Equal,
    // The number, from 0, of the first draw that does not.
    Differs(usize),
    // 2: a list with more places than the limits.
    TooMany,
    // 3: a list with a number out of range.
    OutOfRange,
    // 7: a list with a count above its limit or run, or a range beyond its run.
    NoRoom,
    // 9: unequal numbers of draws.
    DrawCounts,
}

// The number of a refusal; 0 where there is an answer.
// A match, no cast: a case holds a number.
pub fn compared_number(compared: Compared) -> u8
    ensures { result ≡ number compared }
{
    match compared {
        Compared::Equal => 0,
        Compared::Differs(_) => 0,
        Compared::TooMany => 2,
        Compared::OutOfRange => 3,
        Compared::NoRoom => 7,
        Compared::DrawCounts => 9,
    }
}

// Two lists side by side: how many commands each has, how many have been played, and the settings
// after them; how many draws were alike; the answer, once it is known.
#[derive(Clone, Copy)]
pub struct Side {
    pub count: usize,
    pub at: usize,
    pub settings: Settings,
}

#[derive(Clone, Copy)]
pub struct Both {
    pub a: Side,
    pub b: Side,
    pub draws: usize,
    pub answer: Option<Compared>,
}

// What stands past the end of a list: no draw and no setting.
fn no_record() -> Record
    ensures { result ≡ no_record }
{
    Record {
        command: Command::PopDebugGroup,
    }
}

// The record at a place, or `other` past the end of the run.
fn look(list: &[Record], at: usize, other: Record) -> Record
    ensures { result ≡ get_or list.now at other }
{
    list.get(at).copied().unwrap_or(other)
}

// The answer that is known before any draw is compared.
fn first_answer(p: Surveyed, q: Surveyed) -> Option<Compared>
    ensures { result ≡ first_answer p q }
{
    let a = p.breaks;
    let b = q.breaks;
    if a.many | b.many {
        return Some(Compared::TooMany);
    }
    if a.range | b.range {
        return Some(Compared::OutOfRange);
    }
    if a.room | b.room {
        return Some(Compared::NoRoom);
    }
    if p.draws != q.draws {
        return Some(Compared::DrawCounts);
    }
    None
}

// One turn for each command, and one to find that both lists are at their ends.
fn turns_of(p: Surveyed, q: Surveyed) -> usize
    ensures { result ≡ turns_of p q }
{
    within(p.used.commands, MAX_COMMANDS) + within(q.used.commands, MAX_COMMANDS) + 1
}

fn first_side(p: Surveyed) -> Side
    ensures { result ≡ first_side p }
{
    Side {
        count: p.used.commands,
        at: 0,
        settings: Settings::new(),
    }
}

fn start(p: Surveyed, q: Surveyed) -> Both
    ensures { result ≡ start_of p q }
{
    Both {
        a: first_side(p),
        b: first_side(q),
        draws: 0,
        answer: first_answer(p, q),
    }
}

// The side has a command left.
fn has_more(s: Side) -> bool
    ensures { result ≡ has_more s }
{
    s.at < s.count
}

// The side after its next command, x.
fn advance(s: Side, x: Record) -> Side
    ensures { result ≡ advanced s x }
{
    if s.at < s.count {
        let settings = s.settings;
        let command = x.command;
        return Side {
            count: s.count,
            at: s.at + 1,
            settings: place(settings, command),
        };
    }
    s
}

// A draw more; a list has at most 4,096.
fn one_more(draws: usize) -> usize
    ensures { result ≡ one_more draws }
{
    if draws < MAX_COMMANDS {
        draws + 1
    } else {
        draws
    }
}

// The answer is known.
fn tell(m: Both, answer: Compared) -> Both
    ensures { result ≡ told answer m }
{
    let mut next = m;
    next.answer = Some(answer);
    next
}

// Both sides are at a draw.
fn compare_draws(m: Both, x: Record, y: Record) -> Both
    ensures { result ≡ at_draws same_bits m x y }
{
    if alike(m.a.settings, m.b.settings) {
        let mut next = m;
        next.a = advance(m.a, x);
        next.b = advance(m.b, y);
        next.draws = one_more(m.draws);
        return next;
    }
    tell(m, Compared::Differs(m.draws))
}

// A side that is not at a draw goes on; at two draws they are compared; at an end every draw was
// alike.
fn turn(m: Both, x: Record, y: Record) -> Both
    ensures { result ≡ turn_of same_bits m x y }
{
    if m.answer.is_some() {
        return m;
    }
    let more_a = has_more(m.a);
    let more_b = has_more(m.b);
    let class_a = class_of(x.command);
    let class_b = class_of(y.command);
    if more_a & !is_draw(class_a) {
        let mut next = m;
        next.a = advance(m.a, x);
        return next;
    }
    if more_b & !is_draw(class_b) {
        let mut next = m;
        next.b = advance(m.b, y);
        return next;
    }
    if more_a & more_b {
        return compare_draws(m, x, y);
    }
    tell(m, Compared::Equal)
}

// Whether each draw of the two lists fetches alike, floats by their bits: `a` is the list with
// vertex buffer layout, `b` the one without, each with how much of its runs is used.
pub fn compare(a: &[Record], used_a: Used, b: &[Record], used_b: Used) -> Compared
    ensures { Answered (handed a.now used_a) (handed b.now used_b) result }
{
    let p = survey(a, used_a);
    let q = survey(b, used_b);
    let other = no_record();
    let n = turns_of(p, q);
    let mut m = start(p, q);
    // `i` is for the proof, which counts the turns played.
    for i in 0..n {
        let r = look(a, m.a.at, other);
        let s = look(b, m.b.at, other);
        m = turn(m, r, s);
    }
    m.answer.unwrap()
}
