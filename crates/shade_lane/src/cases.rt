//! How lists of statements end.

ghost use Rattle.std.specs.Prelude.{◌≡◌};
ghost use Rattle.shade_core.specs.Code.{code_of};
ghost use Rattle.shade_lane.specs.Lane.{ends_in_return as ends_in_return_of};

use shade_core::{Act, CoreStatement};
use sqlite_items::Items;

/// Whether a list of statements without a call, a switch or a loop ends in a return. Takes no memory.
pub fn ends_in_return(statements: &Items<CoreStatement>) -> bool
    ensures { result ≡ ends_in_return_of (code_of statements.now) }
{
    let mut ends = false;
    'statements: for statement in statements.as_slice() {
        ends = match statement.act {
            Act::Call { .. } | Act::Switch { .. } | Act::Loop { .. } => return false,
            Act::Return { .. } => true,
            _ => false,
        };
    }
    ends
}
