// What the ends of both kinds of pass record, by place. The contracts cite specs/Render.antt and
// specs/End.antt.
ghost use Rattle.std.specs.Prelude.{◌≤◌, ◌≡◌, false, map, ◌++◌, length, take};
ghost use Rattle.records.specs.Check.{some?, bad_resolve};
ghost use Rattle.slots.specs.Vertex.{attributes_of};
ghost use Rattle.slots.specs.Place.{Stands};
ghost use Rattle.pipeline.specs.Vertex.{unset_attribute};
ghost use Rattle.pass.specs.Marks.{timestamp, pop_label};
ghost use Rattle.pass.specs.Render.{end_render_commands};
ghost use Rattle.pass.specs.End.{resolves_in, resolve_commands, after_resolves, unsetting};

use crate::opening::{stamp_command, stamp_count};
use crate::place::color_point;
use bindings::group::one_if;
use records::check::within;
use records::command::Command;
use records::limits::{MAX_COLOR_ATTACHMENTS, MAX_VERTEX_ATTRIBUTES};
use records::state::{PassState, VertexState};

fn resolve_count(s: PassState) -> u32
    ensures { (result ≡ length (resolves_in s)) × (result ≤ 8) }
{
    let n = within(s.resolve_count, MAX_COLOR_ATTACHMENTS);
    n as u32
}

fn unset_count(v: VertexState) -> u32
    ensures { (result ≡ length (attributes_of v)) × (result ≤ 16) }
{
    let n = within(v.attribute_count, MAX_VERTEX_ATTRIBUTES);
    n as u32
}

// Resolve number k. The places of a state that is let in are below 8.
fn resolve_at(s: PassState, k: u32) -> Command
    ensures { some? bad_resolve (resolves_in s) ≡ false → Stands result k (resolve_commands s) }
{
    let at = k as usize;
    let n = within(s.resolve_count, MAX_COLOR_ATTACHMENTS);
    if at < n {
        let resolves = s.resolves;
        let r = resolves[at];
        let dst = r.dst;
        let size = s.render_size;
        Command::ResolveAttachment {
            attachment: color_point(r.place),
            dst,
            size,
        }
    } else {
        Command::PopDebugGroup
    }
}

// Command number k of the attributes' unsets and the timestamp.
fn unset_at(s: PassState, v: VertexState, k: u32) -> Command
    ensures { Stands result k (unsetting s v) }
{
    let at = k as usize;
    let n = within(v.attribute_count, MAX_VERTEX_ATTRIBUTES);
    if at < n {
        let attributes = v.attributes;
        let a = attributes[at];
        Command::UnsetVertexAttribute(a.location)
    } else {
        let query = s.end_of_pass_timestamp;
        stamp_command(query)
    }
}

// Command number k after the resolves.
fn after_resolves_at(s: PassState, v: VertexState, k: u32) -> Command
    ensures { Stands result k (after_resolves s v) }
{
    let invalidates = one_if(s.invalidate_attachments != 0);
    let labelled = one_if(s.has_pass_label);
    if k < invalidates {
        Command::InvalidateAttachments(s.invalidate_attachments)
    } else if k - invalidates < labelled {
        Command::PopDebugGroup
    } else {
        unset_at(s, v, k - invalidates - labelled)
    }
}

// How many commands the end of a render pass has.
pub fn end_render_count(s: PassState, v: VertexState) -> u32
    ensures { result ≡ length (end_render_commands s (map unset_attribute (attributes_of v))) }
{
    let invalidates = one_if(s.invalidate_attachments != 0);
    let labelled = one_if(s.has_pass_label);
    let query = s.end_of_pass_timestamp;
    resolve_count(s) + invalidates + labelled + unset_count(v) + stamp_count(query)
}

// Command number k of them.
pub fn end_command_at(s: PassState, v: VertexState, k: u32) -> Command
    ensures { some? bad_resolve (take s.resolve_count s.resolves) ≡ false → Stands result k (end_render_commands s (map unset_attribute (attributes_of v))) }
{
    let n = resolve_count(s);
    if k < n {
        resolve_at(s, k)
    } else {
        after_resolves_at(s, v, k - n)
    }
}

// How many commands the end of a compute pass has.
pub fn end_compute_count(s: PassState) -> u32
    ensures { result ≡ length (pop_label s.has_pass_label ++ timestamp s.end_of_pass_timestamp) }
{
    let query = s.end_of_pass_timestamp;
    one_if(s.has_pass_label) + stamp_count(query)
}

// Command number k of them.
pub fn end_compute_at(s: PassState, k: u32) -> Command
    ensures { Stands result k (pop_label s.has_pass_label ++ timestamp s.end_of_pass_timestamp) }
{
    let labelled = one_if(s.has_pass_label);
    if k < labelled {
        Command::PopDebugGroup
    } else {
        let query = s.end_of_pass_timestamp;
        stamp_command(query)
    }
}
