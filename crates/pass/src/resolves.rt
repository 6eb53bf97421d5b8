// The resolves that a pass leaves for its end. The contracts cite specs/Resolves.antt.
ghost use Rattle.std.specs.Prelude.{◌<◌, ◌≡◌, Bool, cond, Some, None};
ghost use Rattle.records.specs.declared.state.ResolveDesc.{ResolveDesc};
ghost use Rattle.pass.specs.Render.{places_of, resolves_from};
ghost use Rattle.pass.specs.Resolves.{laid_over, append_if};

use crate::place::resolve_of;
use crate::survey::place_at;
use records::limits::MAX_COLOR_ATTACHMENTS;
use records::pass::RenderPassDescriptor;
use records::pipeline::PrivateCapabilities;
use records::state::{PassState, ResolveDesc};

// The first `count` of `at`: no heap, so the array stands beside its count.
#[derive(Clone, Copy)]
pub struct Resolves {
    pub at: [ResolveDesc; MAX_COLOR_ATTACHMENTS],
    pub count: usize,
}

fn append_resolve(resolve: Option<ResolveDesc>, r: Resolves) -> Resolves
    requires { r.count < 8 }
    ensures { (b : Bool) (x : ResolveDesc) → resolve ≡ cond b (Some x) None → result ≡ append_if b x r }
{
    let mut next = r;
    if let Some(desc) = resolve {
        next.at[r.count] = desc;
        next.count = r.count + 1;
    }
    next
}

// The resolves of the places, over those that the state has.
pub(crate) fn lay_resolves(
    caps: PrivateCapabilities,
    d: RenderPassDescriptor,
    s: PassState,
) -> Resolves
    ensures { result ≡ laid_over (resolves_from caps 0 (places_of d)) s.resolves }
{
    let old = s.resolves;
    let mut r = Resolves { at: old, count: 0 };
    for i in 0..8 {
        r = append_resolve(resolve_of(caps, i, place_at(&d, i)), r);
    }
    r
}
