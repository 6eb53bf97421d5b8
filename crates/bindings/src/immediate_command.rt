// The commands of `set_immediates` by place, and the places of their marker bytes. The contracts
// cite specs/Immediates.antt.
ghost use Rattle.std.specs.Prelude.{ℕ, ◌*◌, ◌≤◌, min, false, List, ◌≡◌, length, take};
ghost use Rattle.records.specs.Check.{some?, bad_descriptor};
ghost use Rattle.slots.specs.Place.{Stands};
ghost use Rattle.bindings.specs.Immediates.{descriptors_of, immediate_commands, immediate_bytes};
ghost use Rattle.bindings.specs.Placed.{places_of};

use records::command::Command;
use records::limits::MAX_IMMEDIATES_COMMANDS;
use records::state::ImmediateState;

// The place in the marker bytes of each descriptor's bytes, and how many bytes there are.
#[derive(Clone, Copy)]
pub struct Placed {
    pub at: [u32; MAX_IMMEDIATES_COMMANDS],
    pub total: u32,
}

// The descriptors' bytes one after the other, the first at `at`.
pub fn place_descriptors(i: ImmediateState, at: u32) -> Placed
    ensures { (result.total ≤ 192 * 256)
        × (some? bad_descriptor (descriptors_of i) ≡ false → at ≤ 65536
        → (take (length (descriptors_of i)) result.at ≡ places_of (descriptors_of i) at)
        × ((ws : List ℕ) → length ws ≡ 64 → result.total ≡ length (immediate_bytes ws (descriptors_of i)))) }
{
    let first = at.min(65536);
    let n = i.count.min(MAX_IMMEDIATES_COMMANDS);
    let mut p = Placed {
        at: [0; MAX_IMMEDIATES_COMMANDS],
        total: 0,
    };
    let descs = i.descs;
    for j in 0..n {
        let d = descs[j];
        p.at[j] = first + p.total;
        p.total = p.total + d.size_bytes.min(256);
    }
    p
}

// Command number k, where `placed` has the places of the descriptors' bytes.
pub fn immediate_command_at(i: ImmediateState, placed: Placed, k: u32) -> Command
    ensures { (at : ℕ) → take (length (descriptors_of i)) placed.at ≡ places_of (descriptors_of i) at → Stands result k (immediate_commands (descriptors_of i) at) }
{
    let j = k as usize;
    if j < i.count.min(MAX_IMMEDIATES_COMMANDS) {
        let descs = i.descs;
        let places = placed.at;
        let d = descs[j];
        Command::SetImmediates {
            uniform: d,
            offset: places[j],
        }
    } else {
        Command::PopDebugGroup
    }
}
