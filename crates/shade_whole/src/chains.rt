//! The limits over chains of calls.

ghost use Rattle.std.specs.Prelude.{◌≡◌, ◌↔◌, ◌<◌, ◌^◌, ℕ, IfOk, IsTrue, length};
ghost use Rattle.shade_chains.specs.Keeps.{CallsStand, HasBytes};
ghost use Rattle.shade_core.specs.Views.{ValueTypes};
ghost use Rattle.shade_whole.specs.Bodies.{KeepsChains};

use shade_chains::{
    Calls, MOST_DEPTH, MOST_LANE_BYTES, MOST_WORDS, Measure, keeps_measure, order_of_calls, rows_of,
};
use shade_core::CoreModule;
use std::alloc::{AllocError, Global};

/// Whether calls make no cycle, and chains of calls from an entry keep their limits, where each function keeps so many bytes.
pub(crate) fn keeps_chains(
    alloc: Global,
    module: &CoreModule,
    bytes: &[u32],
) -> Result<bool, AllocError>
    requires few { length «module».now.functions < 2 ^ 32 }
    requires long { length bytes.now ≡ length «module».now.functions }
    requires stand { CallsStand «module».now }
    ensures { IfOk result (λ b. (values : ℕ → ValueTypes) → HasBytes «module».now values bytes.now → IsTrue b ↔ KeepsChains «module».now values) }
{
    let rows = rows_of(alloc, module.functions.as_slice())?;
    let Some(order) = order_of_calls(alloc, module, &rows)? else {
        return Ok(false);
    };
    let calls = Calls {
        bytes,
        rows: &rows,
        order: &order,
    };
    if !keeps_measure(alloc, module, calls, Measure::Bytes, MOST_LANE_BYTES)? {
        return Ok(false);
    }
    if !keeps_measure(alloc, module, calls, Measure::Depth, MOST_DEPTH)? {
        return Ok(false);
    }
    keeps_measure(alloc, module, calls, Measure::Words, MOST_WORDS)
}
