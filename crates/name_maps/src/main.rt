// Prints each map's entries: the map, the name's place in WebGPU's order, the name, the GL number.
// Then what numbers read back as, for each map that is read back (document 02, request 2).
// The expected output is the Rust's own (`oracle maps`), and its entries inverted
// (tools/oracle/tools/mkmaps.py).
#![tactic(auto)]

ghost use Rattle.std.specs.Prelude.{◌≡◌};

mod back;

use crate::back::read_back;
use name_reads::spelling::Spelled;
use name_reads::word::Map;
use names::name::Name;
use names::wgt::{
    BlendFactor, BlendOperation, CompareFunction, CullMode, FrontFace, PolygonMode,
    PrimitiveTopology, StencilOperation,
};
use names::{
    map_blend_factor, map_blend_operation, map_compare_func, map_cull_mode, map_front_face,
    map_polygon_mode, map_primitive_topology, map_stencil_op,
};
use std::fmt::Debug;
use std::io;

// The entries of a map, which is called `title`, in the order of `names`.
fn print_entries<N: Copy + Debug, F: Fn(N) -> u32>(
    rt: &impl Print,
    title: &str,
    names: &[N],
    map: F,
) -> io::Result<()>
    requires { F.IsAlwaysCallable map }
{
    for (place, name) in names.iter().enumerate() {
        println!(rt; "{title} {place} {name:?} {}", map(*name))?;
    }
    Ok(())
}

fn print_maps(rt: &impl Print) -> io::Result<()> {
    print_entries(rt, "compare", CompareFunction::names(), map_compare_func)?;
    print_entries(
        rt,
        "topology",
        PrimitiveTopology::names(),
        map_primitive_topology,
    )?;
    print_entries(rt, "front", FrontFace::names(), map_front_face)?;
    print_entries(rt, "cull", CullMode::names(), map_cull_mode)?;
    let modes = [PolygonMode::Fill, PolygonMode::Line, PolygonMode::Point];
    print_entries(rt, "polygon", &modes, map_polygon_mode)?;
    print_entries(rt, "stencil_op", StencilOperation::names(), map_stencil_op)?;
    print_entries(rt, "blend_factor", BlendFactor::names(), map_blend_factor)?;
    print_entries(rt, "blend_op", BlendOperation::names(), map_blend_operation)
}

// The tables are those of the maps.
fn print_reads(rt: &impl Print) -> io::Result<()> {
    read_back(rt, Map::CompareFunc, "compare", CompareFunction::table())?;
    read_back(
        rt,
        Map::PrimitiveTopology,
        "topology",
        PrimitiveTopology::table(),
    )?;
    read_back(rt, Map::FrontFace, "front", FrontFace::table())?;
    read_back(rt, Map::CullMode, "cull", CullMode::table())?;
    read_back(rt, Map::StencilOp, "stencil_op", StencilOperation::table())?;
    read_back(rt, Map::BlendFactor, "blend_factor", BlendFactor::table())?;
    read_back(rt, Map::BlendOperation, "blend_op", BlendOperation::table())
}

fn main(rt: HostRuntime) -> io::Result<()> {
    print_maps(&rt)?;
    print_reads(&rt)
}
