// What the machine holds of the five at a list's end, and what is put in for it. The contracts cite
// specs/Ending.antt.
ghost use Rattle.std.specs.Prelude.{◌≡◌};
ghost use Rattle.joining.specs.Joined.{bound_after, no_color, zero_color};
ghost use Rattle.joining.specs.Ending.{fresh_ending, units_after, ending_after};

use mask::{clear, set};
use numbers::bits32;
use records::command::{ColorF32, Command, DepthBiasState};

#[derive(Clone, Copy)]
pub struct Ending {
    // The units that have a sampler.
    pub units: u32,
    pub bias: DepthBiasState,
    pub blend: ColorF32,
    pub alpha: bool,
    // A bound of the clip distances that are on.
    pub clip: u32,
}

pub(crate) fn no_color() -> ColorF32
    ensures { result ≡ no_color }
{
    ColorF32 {
        r: 0.0,
        g: 0.0,
        b: 0.0,
        a: 0.0,
    }
}

pub(crate) fn fresh_ending() -> Ending
    ensures { result ≡ fresh_ending }
{
    Ending {
        units: 0,
        bias: DepthBiasState::new(),
        blend: no_color(),
        alpha: false,
        clip: 0,
    }
}

fn units_after(units: u32, unit: u32, sampler: Option<u32>) -> u32
    ensures { result ≡ units_after units unit sampler }
{
    match sampler {
        None => clear(units, unit),
        Some(_) => set(units, unit),
    }
}

// The bound after distances are switched on from old up to new, or off from new up to old.
fn bound_after(bound: u32, old: u32, new: u32) -> u32
    ensures { result ≡ bound_after bound old new }
{
    if old < new {
        if bound < new {
            return new;
        }
        return bound;
    }
    if old < bound {
        return bound;
    }
    if bound < new {
        return bound;
    }
    new
}

// The five after a command.
pub(crate) fn ended(e: Ending, command: Command) -> Ending
    ensures { result ≡ ending_after e command }
{
    match command {
        Command::BindSampler(unit, sampler) => Ending {
            units: units_after(e.units, unit, sampler),
            ..e
        },
        Command::SetDepthBias(bias) => Ending { bias, ..e },
        Command::SetBlendConstant(blend) => Ending { blend, ..e },
        Command::SetAlphaToCoverage(alpha) => Ending { alpha, ..e },
        Command::SetClipDistances {
            old_count,
            new_count,
        } => Ending {
            clip: bound_after(e.clip, old_count, new_count),
            ..e
        },
        _ => e,
    }
}

pub(crate) fn zero_color(c: ColorF32) -> bool
    ensures { result ≡ zero_color c }
{
    (bits32(c.r) == 0) & ((bits32(c.g) == 0) & ((bits32(c.b) == 0) & (bits32(c.a) == 0)))
}
