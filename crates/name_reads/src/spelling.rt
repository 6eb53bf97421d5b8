// WebGPU's words for its names. The contracts cite specs/Spelling.antt.
ghost use Rattle.std.specs.Prelude.{◌≡◌, ℕ, List};
ghost use Rattle.name_reads.specs.Spelling.{compare_word, topology_word, front_word, cull_word, stencil_op_word, factor_word, operation_word};

use names::name::Name;
use names::wgt::{
    BlendFactor, BlendOperation, CompareFunction, CullMode, FrontFace, PrimitiveTopology,
    StencilOperation,
};

pub trait Spelled: Name + 'static {
    ghost word: { Self → List ℕ };

    // The names in WebGPU's order.
    fn names() -> &'static [Self]
        ensures { result.now ≡ Self.entries.names };

    // WebGPU's word for the name.
    fn spell(self) -> &'static str
        ensures { result.now ≡ word self };
}

impl Spelled for CompareFunction {
    ghost word = { compare_word };

    fn names() -> &'static [CompareFunction] {
        &[
            CompareFunction::Never,
            CompareFunction::Less,
            CompareFunction::Equal,
            CompareFunction::LessEqual,
            CompareFunction::Greater,
            CompareFunction::NotEqual,
            CompareFunction::GreaterEqual,
            CompareFunction::Always,
        ]
    }

    fn spell(self) -> &'static str {
        match self {
            CompareFunction::Never => "never",
            CompareFunction::Less => "less",
            CompareFunction::Equal => "equal",
            CompareFunction::LessEqual => "less-equal",
            CompareFunction::Greater => "greater",
            CompareFunction::NotEqual => "not-equal",
            CompareFunction::GreaterEqual => "greater-equal",
            CompareFunction::Always => "always",
        }
    }
}

impl Spelled for PrimitiveTopology {
    ghost word = { topology_word };

    fn names() -> &'static [PrimitiveTopology] {
        &[
            PrimitiveTopology::PointList,
            PrimitiveTopology::LineList,
            PrimitiveTopology::LineStrip,
            PrimitiveTopology::TriangleList,
            PrimitiveTopology::TriangleStrip,
        ]
    }

    fn spell(self) -> &'static str {
        match self {
            PrimitiveTopology::PointList => "point-list",
            PrimitiveTopology::LineList => "line-list",
            PrimitiveTopology::LineStrip => "line-strip",
            PrimitiveTopology::TriangleList => "triangle-list",
            PrimitiveTopology::TriangleStrip => "triangle-strip",
        }
    }
}

impl Spelled for FrontFace {
    ghost word = { front_word };

    fn names() -> &'static [FrontFace] {
        &[FrontFace::Ccw, FrontFace::Cw]
    }

    fn spell(self) -> &'static str {
        match self {
            FrontFace::Ccw => "ccw",
            FrontFace::Cw => "cw",
        }
    }
}

impl Spelled for CullMode {
    ghost word = { cull_word };

    fn names() -> &'static [CullMode] {
        &[CullMode::None, CullMode::Front, CullMode::Back]
    }

    fn spell(self) -> &'static str {
        match self {
            CullMode::None => "none",
            CullMode::Front => "front",
            CullMode::Back => "back",
        }
    }
}

impl Spelled for StencilOperation {
    ghost word = { stencil_op_word };

    fn names() -> &'static [StencilOperation] {
        &[
            StencilOperation::Keep,
            StencilOperation::Zero,
            StencilOperation::Replace,
            StencilOperation::Invert,
            StencilOperation::IncrementClamp,
            StencilOperation::DecrementClamp,
            StencilOperation::IncrementWrap,
            StencilOperation::DecrementWrap,
        ]
    }

    fn spell(self) -> &'static str {
        match self {
            StencilOperation::Keep => "keep",
            StencilOperation::Zero => "zero",
            StencilOperation::Replace => "replace",
            StencilOperation::Invert => "invert",
            StencilOperation::IncrementClamp => "increment-clamp",
            StencilOperation::DecrementClamp => "decrement-clamp",
            StencilOperation::IncrementWrap => "increment-wrap",
            StencilOperation::DecrementWrap => "decrement-wrap",
        }
    }
}

impl Spelled for BlendFactor {
    ghost word = { factor_word };

    fn names() -> &'static [BlendFactor] {
        &[
            BlendFactor::Zero,
            BlendFactor::One,
            BlendFactor::Src,
            BlendFactor::OneMinusSrc,
            BlendFactor::SrcAlpha,
            BlendFactor::OneMinusSrcAlpha,
            BlendFactor::Dst,
            BlendFactor::OneMinusDst,
            BlendFactor::DstAlpha,
            BlendFactor::OneMinusDstAlpha,
            BlendFactor::SrcAlphaSaturated,
            BlendFactor::Constant,
            BlendFactor::OneMinusConstant,
            BlendFactor::Src1,
            BlendFactor::OneMinusSrc1,
            BlendFactor::Src1Alpha,
            BlendFactor::OneMinusSrc1Alpha,
        ]
    }

    fn spell(self) -> &'static str {
        match self {
            BlendFactor::Zero => "zero",
            BlendFactor::One => "one",
            BlendFactor::Src => "src",
            BlendFactor::OneMinusSrc => "one-minus-src",
            BlendFactor::SrcAlpha => "src-alpha",
            BlendFactor::OneMinusSrcAlpha => "one-minus-src-alpha",
            BlendFactor::Dst => "dst",
            BlendFactor::OneMinusDst => "one-minus-dst",
            BlendFactor::DstAlpha => "dst-alpha",
            BlendFactor::OneMinusDstAlpha => "one-minus-dst-alpha",
            BlendFactor::SrcAlphaSaturated => "src-alpha-saturated",
            BlendFactor::Constant => "constant",
            BlendFactor::OneMinusConstant => "one-minus-constant",
            BlendFactor::Src1 => "src1",
            BlendFactor::OneMinusSrc1 => "one-minus-src1",
            BlendFactor::Src1Alpha => "src1-alpha",
            BlendFactor::OneMinusSrc1Alpha => "one-minus-src1-alpha",
        }
    }
}

impl Spelled for BlendOperation {
    ghost word = { operation_word };

    fn names() -> &'static [BlendOperation] {
        &[
            BlendOperation::Add,
            BlendOperation::Subtract,
            BlendOperation::ReverseSubtract,
            BlendOperation::Min,
            BlendOperation::Max,
        ]
    }

    fn spell(self) -> &'static str {
        match self {
            BlendOperation::Add => "add",
            BlendOperation::Subtract => "subtract",
            BlendOperation::ReverseSubtract => "reverse-subtract",
            BlendOperation::Min => "min",
            BlendOperation::Max => "max",
        }
    }
}
