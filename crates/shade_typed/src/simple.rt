//! The scalars, the vectors and the results of exchanges of a table.

ghost use Rattle.std.specs.Prelude.{◌≡◌, ◌<◌, ◌↔◌, IfNone, IfOk, IfSome, Contains, IsTrue, Some, length};
ghost use Rattle.shade_core.specs.Types.{type_at};
ghost use Rattle.shade_typed.specs.Simple.{AreSimple, is_simple as is_simple_of};

use shade_values::{ShadeType, TypeId, TypeTable};
use std::alloc::{AllocError, Global};

/// Whether a type is a scalar, a vector or the result of an exchange.
pub fn is_simple(ty: ShadeType) -> bool
    ensures { result ≡ is_simple_of ty }
{
    matches!(
        ty,
        ShadeType::Plain(_) | ShadeType::Vector(_, _) | ShadeType::Exchanged(_)
    )
}

/// Whether two types are one.
pub fn is_same(one: ShadeType, other: ShadeType) -> bool
    ensures { IsTrue result ↔ (one ≡ other) }
{
    one == other
}

/// The ids of the scalars, the vectors and the results of exchanges of a table, of which there are at most twenty.
pub fn simple_ids(alloc: Global, table: &TypeTable) -> Result<Vec<TypeId>, AllocError>
    ensures { IfOk result (λ ids. AreSimple table.now ids.items) }
{
    let count = table.count();
    let mut ids = Vec::new(alloc);
    let mut number = 0;
    'types: while number < count {
        if is_simple(*table.get(TypeId(number))) {
            ids.push(TypeId(number))?;
        }
        number += 1;
    }
    Ok(ids)
}

/// The id of a simple type, if the table has it.
pub(crate) fn find_simple(table: &TypeTable, ids: &[TypeId], ty: ShadeType) -> Option<TypeId>
    requires ids { AreSimple table.now ids.now }
    requires simple { IsTrue (is_simple_of ty) }
    ensures some { IfSome result (λ id. type_at table.now id ≡ Some ty) }
    ensures none { IfNone result (¬ Contains table.now.types ty) }
{
    'ids: for id in ids {
        if is_same(*table.get(*id), ty) {
            return Some(*id);
        }
    }
    None
}
