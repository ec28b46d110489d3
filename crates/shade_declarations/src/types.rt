//! Types where they are written.

ghost use Rattle.std.specs.Prelude.{◌≡◌};
ghost use Rattle.shade_declarations.specs.Types.{written_id};

use shade_base::Place;
use shade_known::{Known, Operand, TypeRule, TypingFault, What, what_at};
use shade_values::TypeId;

/// A rule that fails at a place.
pub(crate) fn breaks(place: Place, rule: TypeRule) -> TypingFault
    ensures { result ≡ TypingFault.Rule place rule }
{
    TypingFault::Rule { place, rule }
}

/// Gives the id of the type that stands at a node, if one does. Takes no memory.
pub fn written_id(known: &Known, node: Operand) -> Option<TypeId>
    ensures { result ≡ written_id known.now node }
{
    match what_at(&known.facts, node.node) {
        Some(What::Type { ty, .. }) => Some(*ty),
        _ => None,
    }
}
