// The records of gles/mod.rs that hold GL numbers, each with the value that a state starts with.
// `new` and not `Default`: constants and constructors are the project's rule for starting values.
ghost use Rattle.std.specs.Prelude.{◌≡◌};
ghost use Rattle.names.specs.Start.{start_primitive_state, start_stencil_ops, start_stencil_side, start_stencil_state};

#[derive(Clone, Copy, Debug, PartialEq, Eq)]
pub struct PrimitiveState {
    pub front_face: u32,
    pub cull_face: u32,
    pub unclipped_depth: bool,
    pub polygon_mode: u32,
}

impl PrimitiveState {
    pub const START: u32 = 0;

    pub fn new() -> Self
        ensures { result ≡ start_primitive_state }
    {
        PrimitiveState {
            front_face: PrimitiveState::START,
            cull_face: PrimitiveState::START,
            unclipped_depth: false,
            polygon_mode: PrimitiveState::START,
        }
    }
}

#[derive(Clone, Copy, Debug, PartialEq, Eq)]
pub struct StencilOps {
    pub pass: u32,
    pub fail: u32,
    pub depth_fail: u32,
}

impl StencilOps {
    pub const KEEP: u32 = 0x1e00;

    pub fn new() -> Self
        ensures { result ≡ start_stencil_ops }
    {
        StencilOps {
            pass: StencilOps::KEEP,
            fail: StencilOps::KEEP,
            depth_fail: StencilOps::KEEP,
        }
    }
}

#[derive(Clone, Copy, Debug, PartialEq, Eq)]
pub struct StencilSide {
    pub function: u32,
    pub mask_read: u32,
    pub mask_write: u32,
    pub reference: u32,
    pub ops: StencilOps,
}

impl StencilSide {
    pub const ALWAYS: u32 = 0x207;

    pub const MASK: u32 = 0xff;

    pub fn new() -> Self
        ensures { result ≡ start_stencil_side }
    {
        StencilSide {
            function: StencilSide::ALWAYS,
            mask_read: StencilSide::MASK,
            mask_write: StencilSide::MASK,
            reference: 0,
            ops: StencilOps::new(),
        }
    }
}

#[derive(Clone, Copy, Debug, PartialEq, Eq)]
pub struct StencilState {
    pub front: StencilSide,
    pub back: StencilSide,
}

impl StencilState {
    pub fn new() -> Self
        ensures { result ≡ start_stencil_state }
    {
        StencilState {
            front: StencilSide::new(),
            back: StencilSide::new(),
        }
    }
}

#[derive(Clone, Copy, Debug, PartialEq, Eq)]
pub struct BlendComponent {
    pub src: u32,
    pub dst: u32,
    pub equation: u32,
}

#[derive(Clone, Copy, Debug, PartialEq, Eq)]
pub struct BlendDesc {
    pub alpha: BlendComponent,
    pub color: BlendComponent,
}
