//! What the rows of operators and built-in functions give.

ghost use Rattle.std.specs.Prelude.{◌≡◌, All, IfSome, IsTrue};
ghost use Rattle.shade_overload.specs.Rows.{IsKnown};
ghost use Rattle.shade_values.specs.Sound.{IsOf};
ghost use Rattle.shade_typed.specs.Answers.{Answers};
ghost use Rattle.shade_typed.specs.Rules.{RowTakes};

use shade_overload::{Builtin, choose};
use shade_values::{ShadeType, TypeTable};
use std::alloc::Global;

/// What the row gives that takes some types, none of them AbstractInt. Takes no memory.
pub fn row_result(
    alloc: Global,
    table: &TypeTable,
    builtin: Builtin,
    types: &[ShadeType],
) -> Option<Option<ShadeType>>
    requires of { All (IsOf table.now) types.now }
    requires known { All IsKnown types.now }
    ensures { Answers (RowTakes table.now builtin types.now) result }
{
    let Some(row) = choose(alloc, table, builtin, types) else {
        return None;
    };
    Some(row.result)
}
