// The state with one part changed: an assignment to a copy, not a state built anew (docs/DECISIONS.md, D77).
ghost use Rattle.std.specs.Prelude.{◌≡◌};
ghost use Rattle.calls.specs.Parts.{with_progress, with_vertex, with_draw, with_fixed, with_bind, with_pass, with_immediates};

use records::state::{
    BindState, DrawState, FixedState, ImmediateState, PassState, Progress, State, VertexState,
};

pub fn with_progress(s: State, progress: Progress) -> State
    ensures { result ≡ with_progress progress s }
{
    let mut next = s;
    next.progress = progress;
    next
}

pub fn with_vertex(s: State, vertex: VertexState) -> State
    ensures { result ≡ with_vertex vertex s }
{
    let mut next = s;
    next.vertex = vertex;
    next
}

pub fn with_draw(s: State, draw: DrawState) -> State
    ensures { result ≡ with_draw draw s }
{
    let mut next = s;
    next.draw = draw;
    next
}

pub fn with_fixed(s: State, fixed: FixedState) -> State
    ensures { result ≡ with_fixed fixed s }
{
    let mut next = s;
    next.fixed = fixed;
    next
}

pub fn with_bind(s: State, bind: BindState) -> State
    ensures { result ≡ with_bind bind s }
{
    let mut next = s;
    next.bind = bind;
    next
}

pub fn with_pass(s: State, pass: PassState) -> State
    ensures { result ≡ with_pass pass s }
{
    let mut next = s;
    next.pass = pass;
    next
}

pub fn with_immediates(s: State, immediates: ImmediateState) -> State
    ensures { result ≡ with_immediates immediates s }
{
    let mut next = s;
    next.immediates = immediates;
    next
}
