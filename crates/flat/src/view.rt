// A view, as ten numbers.
use crate::line::{Line, Wrong};
use crate::small::take_range;
use records::command::{SampleKind, TextureInner, TextureView};

fn take_texture(line: &mut Line) -> Result<TextureInner, Wrong> {
    let kind = line.take(3)?;
    let raw = line.take_u32()?;
    let target = line.take_u32()?;
    Ok(match kind {
        0 => TextureInner::Renderbuffer(raw),
        1 => TextureInner::DefaultRenderbuffer,
        2 => TextureInner::Texture { raw, target },
        _ => TextureInner::ExternalNativeFramebuffer(raw),
    })
}

pub(crate) fn take_view(line: &mut Line) -> Result<TextureView, Wrong> {
    let inner = take_texture(line)?;
    let aspects = line.take_u8()? as u32;
    let mip_levels = take_range(line)?;
    let array_layers = take_range(line)?;
    let kind = line.take_one_of(&[
        SampleKind::Float,
        SampleKind::Uint,
        SampleKind::Sint,
        SampleKind::Depth,
    ])?;
    let is_srgb = line.take_bool()?;
    Ok(TextureView {
        inner,
        aspects,
        mip_levels,
        array_layers,
        kind,
        is_srgb,
    })
}
