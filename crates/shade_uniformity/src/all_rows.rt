//! All rows of a function.

ghost use Rattle.std.specs.Prelude.{◌<◌, ◌^◌, IfOk, length};
ghost use Rattle.shade_core.specs.Code.{code_of};
ghost use Rattle.shade_flow.specs.Exact.{IsNumbered, IsReachingOf};
ghost use Rattle.shade_uniformity.specs.AllRows.{AreRows};
ghost use Rattle.shade_uniformity.specs.Visits.{AreAnalysed};

use crate::held::add_all_held;
use crate::rows::{Given, add_rows};
use crate::walk::Spot;
use shade_core::{CoreFunction, CoreModule};
use shade_flow::Reaching;
use std::alloc::{AllocError, Global};

/// The rows of the analysed statements of a function of a module, tags aside: each statement gives its own, and a row is an edge where both its
/// ends are nodes. What is kept in `reaching` is that of this function, whose statements are numbered in structure order.
///
/// Takes time and memory in the order of the rows, and for each Load, and each Return and parameter, the time of a search for what reaches.
/// Parameters have numbers of 32 bits.
pub fn rows_of(
    alloc: Global,
    checked: &CoreModule,
    function: &CoreFunction,
    reaching: &Reaching,
    spots: &[Spot<'_>],
) -> Result<Vec<Given>, AllocError>
    requires analysed { AreAnalysed function.now.body spots.now }
    requires kept { IsReachingOf function.now reaching.now }
    requires numbered { IsNumbered (code_of function.now.body) }
    requires params { length function.now.params < 2 ^ 32 }
    ensures { IfOk result (λ rows. AreRows checked.now function.now rows.items) }
{
    let mut rows = Vec::new(alloc);
    add_rows(checked, function, spots, &mut rows)?;
    add_all_held(alloc, function, reaching, spots, &mut rows)?;
    Ok(rows)
}
