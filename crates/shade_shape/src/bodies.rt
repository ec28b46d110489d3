//! What the statements of a function are asked one by one.

ghost use Rattle.std.specs.Prelude.{◌≡◌, map};
ghost use Rattle.shade_core.specs.HasShape.{ends_with_return as ends_with_return_of, is_return as is_return_of};
ghost use Rattle.shade_core.specs.Standing.{are_numbered as are_numbered_of, by_itself, head_of};

use shade_core::{Act, CoreStatement};
use sqlite_items::Items;

/// Whether statements have the numbers from 0 on, one after another. Takes no memory.
pub fn are_numbered(statements: &[&CoreStatement]) -> bool
    ensures { result ≡ are_numbered_of 0 (map (λ s. by_itself s.now) statements.now) }
{
    let mut next: usize = 0;
    'statements: for statement in statements {
        if statement.number as usize != next {
            return false;
        }
        next += 1;
    }
    true
}

/// Whether the last statement of a list is a return. Takes no memory.
pub fn ends_with_return(list: &Items<CoreStatement>) -> bool
    ensures { result ≡ ends_with_return_of list.now }
{
    let mut ends = false;
    'statements: for statement in list.as_slice() {
        ends = is_return(&statement.act);
    }
    ends
}

fn is_return(act: &Act) -> bool
    ensures { result ≡ is_return_of (head_of act.now) }
{
    matches!(act, Act::Return { .. })
}
