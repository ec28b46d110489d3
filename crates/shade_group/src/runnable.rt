//! Which entries the machine runs.

ghost use Rattle.std.specs.Prelude.{◌↔◌, ◌≤◌, IsTrue, Some};
ghost use Rattle.shade_group.specs.Group.{entry_runs, IsRunnable, lane_count};

use shade_core::{CoreFunction, CoreModule, has_rules};
use shade_lane::ends_in_return;

/// Whether the machine runs the function with this number: an entry of 1 to 256 lanes that has rules, and whose last
/// statement is a return. Takes no memory.
pub fn is_runnable(module: &CoreModule, entry: u32) -> bool
    ensures { IsTrue result ↔ IsRunnable «module».now entry }
{
    match module.functions.get(entry as usize) {
        Some(function) => function_runs(function),
        None => false,
    }
}

/// Whether the machine runs a function.
fn function_runs(function: &CoreFunction) -> bool
    ensures { IsTrue result ↔ entry_runs (Some function.now) }
{
    match function.entry {
        Some(size) => { has_lanes(size) && has_rules(function) && ends_in_return(&function.body) }
        None => false,
    }
}

/// Whether a workgroup of this size has 1 to 256 lanes.
fn has_lanes(size: [u32; 3]) -> bool
    ensures { IsTrue result ↔ ((1 ≤ lane_count size) × (lane_count size ≤ 256)) }
{
    let count = u128::from(size[0]) * u128::from(size[1]) * u128::from(size[2]);
    1 <= count && count <= 256
}
