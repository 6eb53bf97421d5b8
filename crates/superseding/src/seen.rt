// Which things a later command sets again before anything ends the wait. The contracts cite
// specs/Superseded.antt and specs/Seen.antt.
ghost use Rattle.std.specs.Prelude.{◌≡◌};
ghost use Rattle.superseding.specs.Superseded.{ends as ends_of};
ghost use Rattle.superseding.specs.Seen.{thing_mark, mark_of, nothing_seen, is_seen, with_mark, seen_before};

use lists::class::{Class, Thing};
use mask::{set, test};

// Where the masks have the thing that a command sets, if it is a setting of the seven kinds.
#[derive(Clone, Copy)]
pub enum Mark {
    // By slot.
    VertexBuffer(u32),
    // By unit.
    Sampler(u32),
    // Blend constants, viewport, scissor, index buffer and depth bias, numbered from 0.
    Single(u32),
    // Nothing of these: a variant, so that one match reads a mark, where an Option asks for two.
    Nothing,
}

// The things that are set again before anything ends the wait, by slot, unit and number.
#[derive(Clone, Copy)]
pub struct Seen {
    pub buffers: u32,
    pub samplers: u32,
    pub singles: u32,
}

pub(crate) fn nothing_seen() -> Seen
    ensures { result ≡ nothing_seen }
{
    Seen {
        buffers: 0,
        samplers: 0,
        singles: 0,
    }
}

fn thing_mark(thing: Thing) -> Mark
    ensures { result ≡ thing_mark thing }
{
    match thing {
        Thing::Attribute(_) => Mark::Nothing,
        Thing::VertexBuffer(i) => Mark::VertexBuffer(i),
        Thing::IndexBuffer => Mark::Single(3),
        Thing::Buffer(_, _) => Mark::Nothing,
        Thing::Texture(_) => Mark::Nothing,
        Thing::Image(_) => Mark::Nothing,
        Thing::Sampler(u) => Mark::Sampler(u),
        Thing::Viewport => Mark::Single(1),
        Thing::Scissor => Mark::Single(2),
        Thing::BlendConstants => Mark::Single(0),
        Thing::Program => Mark::Nothing,
        Thing::Primitive => Mark::Nothing,
        Thing::DepthBias => Mark::Single(4),
        Thing::AlphaToCoverage => Mark::Nothing,
        Thing::ClipDistances => Mark::Nothing,
        Thing::DepthStencil => Mark::Nothing,
        Thing::Depth => Mark::Nothing,
        Thing::Target(_) => Mark::Nothing,
        Thing::Targets => Mark::Nothing,
        Thing::StencilFunction(_) => Mark::Nothing,
        Thing::StencilOperations(_) => Mark::Nothing,
    }
}

pub(crate) fn mark_of(class: Class) -> Mark
    ensures { result ≡ mark_of class }
{
    match class {
        Class::Draw => Mark::Nothing,
        Class::Clear => Mark::Nothing,
        Class::Dispatch => Mark::Nothing,
        Class::Reset => Mark::Nothing,
        Class::Sets(thing) => thing_mark(thing),
        Class::Other => Mark::Nothing,
    }
}

fn ends(class: Class) -> bool
    ensures { result ≡ ends_of class }
{
    match class {
        Class::Draw => true,
        Class::Clear => true,
        Class::Dispatch => true,
        Class::Reset => true,
        Class::Sets(_) => false,
        Class::Other => false,
    }
}

pub(crate) fn is_seen(seen: Seen, mark: Mark) -> bool
    ensures { result ≡ is_seen seen mark }
{
    match mark {
        Mark::VertexBuffer(i) => test(seen.buffers, i),
        Mark::Sampler(u) => test(seen.samplers, u),
        Mark::Single(k) => test(seen.singles, k),
        Mark::Nothing => false,
    }
}

fn with_mark(seen: Seen, mark: Mark) -> Seen
    ensures { result ≡ with_mark seen mark }
{
    match mark {
        Mark::VertexBuffer(i) => Seen {
            buffers: set(seen.buffers, i),
            ..seen
        },
        Mark::Sampler(u) => Seen {
            samplers: set(seen.samplers, u),
            ..seen
        },
        Mark::Single(k) => Seen {
            singles: set(seen.singles, k),
            ..seen
        },
        Mark::Nothing => seen,
    }
}

// What is seen before a command, where `seen` is what is seen after it.
pub(crate) fn seen_before(seen: Seen, class: Class) -> Seen
    ensures { result ≡ seen_before seen class }
{
    if ends(class) {
        nothing_seen()
    } else {
        with_mark(seen, mark_of(class))
    }
}
