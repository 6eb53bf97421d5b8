// The places of the state's rows, counted through, and what is shown of each.
ghost use Rattle.std.specs.Prelude.{◌≡◌, ◌≤◌, ◌<◌, length, get_or, IfSome};
ghost use Rattle.text.specs.Put.{Put};
ghost use Rattle.state_text.specs.State.{state_line, state_text};
ghost use Rattle.state_text.specs.Told.{told_line, TellsRow, row_at, row_places, place_in};

use crate::STATE_PLACES;
use crate::bind::{sampler, unit};
use crate::fixed::{bias, color_target, primitive, stencil};
use crate::immediates::{descriptor, word};
use crate::pass::{invalidate, render_size, resolve};
use crate::rows::{flag, index, number, optional};
use crate::vertex::{attribute, instance, masks, slot};
use records::state::State;
use text::field::{Shown, Word};
use text::put::{put_shown, put_word};

// Place i of a row. Kept, rows by number: `row_at` of specs/Told.antt has them so.
#[derive(Clone, Copy)]
pub struct Place {
    pub row: usize,
    pub i: u32,
}

const ROW_PLACES: [u32; 23] = [
    1, 1, 1, 16, 16, 8, 1, 1, 1, 1, 16, 16, 1, 8, 10, 1, 1, 16, 1, 192, 64, 1, 1,
];

fn row_places(row: usize) -> u32
    requires { row < 23 }
    ensures { result ≡ get_or row_places row 0 }
{
    ROW_PLACES[row]
}

// The row of place k of the table, 23 past its end.
pub(crate) fn place_of(k: u32) -> Place
    ensures { (result ≡ place_in row_places 0 k) × (result.row ≤ 23) }
{
    let mut i = k;
    for row in 0..23 {
        let places = row_places(row);
        if i < places {
            return Place { row, i };
        }
        i -= places;
    }
    Place { row: 23, i }
}

// What is shown of place i of a row.
pub(crate) fn told(s: &State, row: usize, i: u32) -> Option<Shown>
    requires { row ≤ 23 }
    ensures { TellsRow (row_at s.now row) i result }
{
    let draw = s.draw;
    let pass = s.pass;
    let location = draw.first_instance_location;
    let timestamp = pass.end_of_pass_timestamp;
    match row {
        0 => number(49, s.draw.topology),
        1 => primitive(s.fixed.primitive),
        2 => index(s.draw),
        3 => slot(s.vertex, i),
        4 => attribute(s.vertex, i),
        5 => color_target(s.fixed, i),
        6 => stencil(55, s.fixed.stencil.front),
        7 => stencil(56, s.fixed.stencil.back),
        8 => bias(s.fixed.depth_bias),
        9 => flag(58, s.fixed.alpha_to_coverage_enabled),
        10 => sampler(s.bind, i),
        11 => unit(s.bind, i),
        12 => render_size(s.pass.render_size),
        13 => resolve(s.pass, i),
        14 => invalidate(s.pass.invalidate_attachments, i),
        15 => flag(64, s.pass.has_pass_label),
        16 => masks(s.vertex),
        17 => instance(s.vertex, i),
        18 => optional(67, location),
        19 => descriptor(s.immediates, i),
        20 => word(s.immediates, i),
        21 => optional(70, timestamp),
        22 => number(71, s.fixed.clip_distance_count),
        _ => None,
    }
}

// A line of the state, where it is there, at the end of `line`.
fn put_told(line: &mut [u8], told: Option<Shown>) -> usize
    requires { (length line.old ≡ 384) × IfSome told (λ s. (s.name < 74) × (s.count ≤ 14)) }
    ensures { Put (told_line told) line.old 384 line.new result }
{
    let Some(shown) = told else {
        return 384;
    };
    let i = put_shown(line, shown);
    put_word(line, i, Word::State)
}

// The state's line k, where it is there, at the end of `line`.
pub(crate) fn put_state_line(line: &mut [u8], s: &State, k: u32) -> usize
    requires { length line.old ≡ 384 }
    ensures { Put (state_line s.now k) line.old 384 line.new result }
{
    let place = place_of(k);
    let told = told(s, place.row, place.i);
    put_told(line, told)
}

fn line_length(s: &State, k: u32) -> usize
    ensures { (result ≡ length (state_line s.now k)) × (result ≤ 384) }
{
    let mut line = [0u8; 384];
    let start = put_state_line(&mut line, s, k);
    384 - start
}

// How many bytes the state's lines have together.
pub(crate) fn state_length(s: &State) -> usize
    ensures { result ≡ length (state_text s.now) }
{
    let mut total = 0;
    for k in 0..STATE_PLACES {
        total += line_length(s, k);
    }
    total
}
