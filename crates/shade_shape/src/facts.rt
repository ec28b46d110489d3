//! What holds of each type of a table.

ghost use Rattle.std.specs.Prelude.{◌≡◌, ◌<◌, ◌&&◌, false, map, length, IfOk};
ghost use Rattle.std.specs.List.{list_all, list_any};
ghost use Rattle.shade_core.specs.Types.{is_known as is_known_of, is_word as is_word_of};
ghost use Rattle.shade_shape.specs.Facts.{array_facts, atomic_facts, ends_by, exchanged_facts, fact_in, facts_by as facts_by_of, facts_of, is_bool as is_bool_of, runtime_facts, scalar_facts, struct_facts};
ghost use Rattle.shade_values.specs.Shape.{shapes};
ghost use Rattle.shade_values.specs.Sound.{AreKnown, IsOver};

use shade_values::{Name, Scalar, ShadeType, TypeId, TypeTable};
use std::alloc::{AllocError, Global};

/// What holds of a type.
#[derive(Clone, Copy, Debug, PartialEq, Eq)]
pub struct TypeFacts {
    /// Plain data without AbstractInt.
    pub plain: bool,
    /// A shader may load its values.
    pub loadable: bool,
    /// A runtime-sized array of plain data.
    pub endless: bool,
    /// What a storage variable may hold.
    pub buffer: bool,
    pub holds_bool: bool,
    pub holds_atomic: bool,
}

impl TypeFacts {
    /// Whether a shader may hold its values.
    pub fn is_constructible(self) -> bool
        ensures { result ≡ (self.loadable && self.plain) }
    {
        self.loadable && self.plain
    }
}

/// A list of what holds of each type, by its number.
pub type TableFacts = Vec<TypeFacts>;

fn is_known(scalar: Scalar) -> bool
    ensures { result ≡ is_known_of scalar }
{
    match scalar {
        Scalar::Abstract => false,
        Scalar::Bool | Scalar::I32 | Scalar::U32 => true,
    }
}

fn is_word(scalar: Scalar) -> bool
    ensures { result ≡ is_word_of scalar }
{
    match scalar {
        Scalar::I32 | Scalar::U32 => true,
        Scalar::Bool | Scalar::Abstract => false,
    }
}

fn is_bool(scalar: Scalar) -> bool
    ensures { result ≡ is_bool_of scalar }
{
    match scalar {
        Scalar::Bool => true,
        Scalar::Abstract | Scalar::I32 | Scalar::U32 => false,
    }
}

/// What holds of the type with an id, and of a pointer where no type has it. Takes no memory.
pub(crate) fn fact_at(known: &[TypeFacts], id: TypeId) -> TypeFacts
    ensures { result ≡ fact_in known.now id }
{
    match known.get(id.0 as usize) {
        Some(fact) => *fact,
        None => OF_POINTER,
    }
}

/// Plain data of scalars.
fn of_scalar(scalar: Scalar) -> TypeFacts
    ensures { result ≡ scalar_facts scalar }
{
    TypeFacts {
        plain: is_known(scalar),
        loadable: true,
        endless: false,
        buffer: is_known(scalar),
        holds_bool: is_bool(scalar),
        holds_atomic: false,
    }
}

fn of_atomic(scalar: Scalar) -> TypeFacts
    ensures { result ≡ atomic_facts scalar }
{
    TypeFacts {
        plain: is_word(scalar),
        loadable: false,
        endless: false,
        buffer: is_word(scalar),
        holds_bool: false,
        holds_atomic: true,
    }
}

fn of_exchanged(scalar: Scalar) -> TypeFacts
    ensures { result ≡ exchanged_facts scalar }
{
    TypeFacts {
        plain: is_word(scalar),
        loadable: true,
        endless: false,
        buffer: is_word(scalar),
        holds_bool: true,
        holds_atomic: false,
    }
}

fn of_array(element: TypeFacts) -> TypeFacts
    ensures { result ≡ array_facts element }
{
    TypeFacts {
        endless: false,
        buffer: element.plain,
        ..element
    }
}

fn of_runtime_array(element: TypeFacts) -> TypeFacts
    ensures { result ≡ runtime_facts element }
{
    TypeFacts {
        plain: false,
        loadable: false,
        endless: element.plain,
        buffer: element.plain,
        ..element
    }
}

/// Whether some members are plain data, of which the last may be a runtime-sized array.
fn end_well(known: &[TypeFacts], members: &[(Name, TypeId)]) -> bool
    ensures { result ≡ ends_by known.now false members.now }
{
    let mut ended = false;
    for (_, id) in members {
        if ended {
            return false;
        }
        let fact = fact_at(known, *id);
        if !fact.plain && !fact.endless {
            return false;
        }
        ended = !fact.plain;
    }
    true
}

fn are_data(known: &[TypeFacts], members: &[(Name, TypeId)]) -> bool
    ensures { result ≡ list_all (λ m. (fact_in known.now m.1).plain) members.now }
{
    members.iter().all(|(_, id)| fact_at(known, *id).plain)
}

fn are_loadable(known: &[TypeFacts], members: &[(Name, TypeId)]) -> bool
    ensures { result ≡ list_all (λ m. (fact_in known.now m.1).loadable) members.now }
{
    members.iter().all(|(_, id)| fact_at(known, *id).loadable)
}

fn hold_bool(known: &[TypeFacts], members: &[(Name, TypeId)]) -> bool
    ensures { result ≡ list_any (λ m. (fact_in known.now m.1).holds_bool) members.now }
{
    members.iter().any(|(_, id)| fact_at(known, *id).holds_bool)
}

fn hold_atomic(known: &[TypeFacts], members: &[(Name, TypeId)]) -> bool
    ensures { result ≡ list_any (λ m. (fact_in known.now m.1).holds_atomic) members.now }
{
    members
        .iter()
        .any(|(_, id)| fact_at(known, *id).holds_atomic)
}

fn of_struct(known: &[TypeFacts], members: &[(Name, TypeId)]) -> TypeFacts
    ensures { result ≡ struct_facts known.now members.now }
{
    TypeFacts {
        plain: are_data(known, members),
        loadable: are_loadable(known, members),
        endless: false,
        buffer: end_well(known, members),
        holds_bool: hold_bool(known, members),
        holds_atomic: hold_atomic(known, members),
    }
}

/// No shader holds a pointer.
const OF_POINTER: TypeFacts = TypeFacts {
    plain: false,
    loadable: false,
    endless: false,
    buffer: false,
    holds_bool: false,
    holds_atomic: false,
};

/// What holds of a type over the types that are known.
pub fn facts_by(known: &[TypeFacts], table: &TypeTable, ty: ShadeType) -> TypeFacts
    requires { IsOver (length known.now) table.now.structs ty }
    ensures { result ≡ facts_by_of known.now table.now.structs ty }
{
    match ty {
        ShadeType::Plain(scalar) | ShadeType::Vector(_, scalar) => of_scalar(scalar),
        ShadeType::Array(element, _) => of_array(fact_at(known, element)),
        ShadeType::RuntimeArray(element) => of_runtime_array(fact_at(known, element)),
        ShadeType::Atomic(scalar) => of_atomic(scalar),
        ShadeType::Struct(number) => of_struct(known, table.members(number)),
        ShadeType::Exchanged(scalar) => of_exchanged(scalar),
        ShadeType::Pointer(_, _, _) => OF_POINTER,
    }
}

/// What holds of each type of a table.
pub fn facts_of_types(alloc: Global, table: &TypeTable) -> Result<TableFacts, AllocError>
    ensures { IfOk result (λ facts. facts.items ≡ map facts_of (shapes table.now)) }
{
    let count = table.count();
    let mut facts = Vec::with_capacity(alloc, count as usize)?;
    let mut number = 0;
    'types: while number < count {
        let fact = facts_by(&facts, table, *table.get(TypeId(number)));
        facts.push(fact)?;
        number += 1;
    }
    Ok(facts)
}
