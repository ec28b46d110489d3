//! What may stand in a template list.

ghost use Rattle.std.specs.Prelude.{◌≡◌, IfOk, IfSome};
ghost use Rattle.std.specs.Option.{option_copied};
ghost use Rattle.shade_values.specs.Sound.{IsOf};
ghost use Rattle.shade_values.specs.Table.{Table};
ghost use Rattle.shade_known.specs.Keeps.{IsFoundOf};
ghost use Rattle.shade_known.specs.Lookups.{what_in};
ghost use Rattle.shade_tasks.specs.Arguments.{argument_by, is_bad_type, is_pointer_word, is_storage, is_stored, is_unsized, listed_by};

use crate::compounds::breaks;
use shade_base::Place;
use shade_calls::{is_runtime_sized, written_type};
use shade_known::{Found, Generator, Known, Operand, TypeRule, TypingFault, What, what_at};
use shade_steps::Slot;
use shade_values::{ShadeType, Space, TypeTable};

/// Whether a node is a pointer type whose access is none of its space.
pub(crate) fn is_bad_type(known: &Known, node: u32) -> bool
    ensures { result ≡ is_bad_type (what_in known.now.facts node) }
{
    match what_at(&known.facts, node) {
        Some(What::Type { bad_access, .. }) => *bad_access,
        _ => false,
    }
}

/// Whether a node is the word `storage`.
pub(crate) fn is_storage(known: &Known, node: u32) -> bool
    ensures { result ≡ is_storage (what_in known.now.facts node) }
{
    match what_at(&known.facts, node) {
        Some(What::Space(Space::Storage)) => true,
        _ => false,
    }
}

fn is_unsized(types: &TypeTable, ty: Option<ShadeType>) -> bool
    requires { IfSome ty (IsOf types.now) }
    ensures { result ≡ is_unsized types.now ty }
{
    match ty {
        Some(ty) => is_runtime_sized(types, ty),
        None => false,
    }
}

fn is_pointer_word(word: Option<Generator>) -> bool
    ensures { result ≡ is_pointer_word word }
{
    match word {
        Some(Generator::Pointer) => true,
        _ => false,
    }
}

/// Whether what stands here in the list of a word is what a pointer to storage points to.
fn is_stored(word: Option<Generator>, known: &Known, slot: Slot) -> bool
    ensures { result ≡ is_stored word known.now slot }
{
    match slot {
        Slot::Second(before) => is_pointer_word(word) && is_storage(known, before.node),
        Slot::First | Slot::Later => false,
    }
}

fn argument_by(is_unfit: bool, is_bad: bool, place: Place) -> Result<Found, TypingFault>
    ensures answer { result ≡ argument_by is_unfit is_bad place }
    ensures of { (t : Table) → IfOk result (IsFoundOf t) }
{
    if is_unfit {
        return Err(breaks(place, TypeRule::Template));
    }
    if is_bad {
        return Err(breaks(place, TypeRule::Space));
    }
    Ok(Found::Nothing)
}

/// Whether a node may stand in the template list of a word: the rule of templates fails at its place where it is a type whose size a buffer
/// decides, but for what a pointer to storage points to, and the rule of spaces where it is a pointer whose access is none of its space.
/// Takes no memory.
pub(crate) fn listed(
    word: Option<Generator>,
    known: &Known,
    slot: Slot,
    own: Operand,
) -> Result<Found, TypingFault>
    ensures answer { result ≡ listed_by word known.now slot own.node own.place }
    ensures of { (t : Table) → IfOk result (IsFoundOf t) }
{
    let is_unfit = is_unsized(&known.types, written_type(known, own.node))
        && !is_stored(word, known, slot);
    argument_by(is_unfit, is_bad_type(known, own.node), own.place)
}
