//! How a new type is laid out, by the types that a table has.

ghost use Rattle.std.specs.Prelude.{◌≡◌, ◌<◌, ◌≤◌, ◌+◌, ◌^◌, length, map, slice_get, slice_index_or, IfOk, IfSome, IfNone, IsTrue, ◌↔◌, Contains};
ghost use Rattle.std.specs.List.{list_all};
ghost use Rattle.shade_values.specs.Kept.{types_of, layouts_of, loads_of, laid, layout_by, loads_by, layout_in, load_in};
ghost use Rattle.shade_values.specs.Layouts.{IsSmall, array_layout, struct_layout};
ghost use Rattle.shade_values.specs.Sound.{IsOver, AreKnown};

use crate::entry::{Entry, Struct};
use crate::name::Name;
use crate::table::TableFault;
use crate::types::{Layout, ShadeType, TypeId};

/// The greatest size of a type, in bytes.
const GREATEST_SIZE: u128 = 4_294_967_295;

fn is_type(left: ShadeType, right: ShadeType) -> bool
    ensures { IsTrue result ↔ (left ≡ right) }
{
    left == right
}

/// Where a type stands among the entries.
pub(crate) fn place_of(entries: &[Entry], ty: ShadeType) -> Option<usize>
    ensures found { IfSome result (λ place. slice_get (types_of entries.now) place ≡ Some ty) }
    ensures within { IfSome result (λ place. place < length entries.now) }
    ensures absent { IfNone result (¬ Contains (types_of entries.now) ty) }
{
    for (place, entry) in entries.iter().enumerate() {
        if is_type(entry.ty, ty) {
            return Some(place);
        }
    }
    None
}

fn layout_of(entries: &[Entry], id: TypeId) -> Layout
    requires { id.0 < length entries.now }
    ensures value { result ≡ layout_in (layouts_of entries.now) id }
    ensures small { IsSmall result }
{
    let entry = &entries[id.0 as usize];
    entry.layout
}

/// The layout, if it is not too large.
fn limited(size: u128, align: u64, stride: u64) -> Result<Layout, TableFault>
    requires aligned { 0 < align }
    requires near { align ≤ 16 }
    ensures laid { result ≡ laid (record { size = size; align = align; stride = stride }) }
    ensures small { IfOk result IsSmall }
{
    if size > GREATEST_SIZE {
        return Err(TableFault::TooLarge(size));
    }
    Ok(Layout {
        size: size as u64,
        align,
        stride,
    })
}

fn array_of(count: u32, element: Layout) -> Result<Layout, TableFault>
    requires { IsSmall element }
    ensures laid { result ≡ laid (array_layout count element) }
    ensures small { IfOk result IsSmall }
{
    let stride = element.size.next_multiple_of(element.align);
    limited(
        u128::from(count) * u128::from(stride),
        element.align,
        stride,
    )
}

/// The layout of a struct with these members.
pub(crate) fn layout_of_struct(
    entries: &[Entry],
    members: &[(Name, TypeId)],
) -> Result<Layout, TableFault>
    requires { AreKnown (length entries.now) members.now }
    ensures small { IfOk result IsSmall }
    ensures laid { result ≡ laid (struct_layout (map (λ m. layout_in (layouts_of entries.now) m.1) members.now)) }
{
    let mut end: u128 = 0;
    let mut align: u64 = 1;
    for (_, id) in members {
        let member = layout_of(entries, *id);
        end = end.next_multiple_of(u128::from(member.align)) + u128::from(member.size);
        align = align.max(member.align);
    }
    limited(end.next_multiple_of(u128::from(align)), align, 0)
}

/// The layout of a type, if it is not too large.
pub(crate) fn layout_of_type(
    entries: &[Entry],
    structs: &[Struct],
    ty: ShadeType,
) -> Result<Layout, TableFault>
    requires { IsOver (length entries.now) structs.now ty }
    ensures small { IfOk result IsSmall }
    ensures laid { result ≡ laid (layout_by (layouts_of entries.now) structs.now ty) }
{
    match ty {
        ShadeType::Plain(_) | ShadeType::Atomic(_) => limited(4, 4, 0),
        ShadeType::Vector(2, _) => limited(8, 8, 0),
        ShadeType::Vector(3, _) => limited(12, 16, 0),
        ShadeType::Vector(_, _) => limited(16, 16, 0),
        ShadeType::Array(element, count) => array_of(count, layout_of(entries, element)),
        ShadeType::RuntimeArray(element) => array_of(1, layout_of(entries, element)),
        ShadeType::Struct(number) => {
            let known = &structs[number as usize];
            layout_of_struct(entries, &known.members)
        }
        ShadeType::Exchanged(_) => limited(8, 4, 0),
        ShadeType::Pointer(_, _, _) => limited(0, 1, 0),
    }
}

fn loads(entries: &[Entry], id: TypeId) -> bool
    requires { id.0 < length entries.now }
    ensures { result ≡ load_in (loads_of entries.now) id }
{
    let entry = &entries[id.0 as usize];
    entry.loadable
}

/// Whether a struct with these members is loadable.
pub(crate) fn struct_is_loadable(entries: &[Entry], members: &[(Name, TypeId)]) -> bool
    requires { AreKnown (length entries.now) members.now }
    ensures { result ≡ list_all (λ m. load_in (loads_of entries.now) m.1) members.now }
{
    members.iter().all(|(_, id)| loads(entries, *id))
}

/// Whether a type is loadable.
pub(crate) fn type_is_loadable(entries: &[Entry], structs: &[Struct], ty: ShadeType) -> bool
    requires { IsOver (length entries.now) structs.now ty }
    ensures { result ≡ loads_by (loads_of entries.now) structs.now ty }
{
    match ty {
        ShadeType::Plain(_) | ShadeType::Vector(_, _) | ShadeType::Exchanged(_) => true,
        ShadeType::RuntimeArray(_) | ShadeType::Atomic(_) | ShadeType::Pointer(_, _, _) => false,
        ShadeType::Array(element, _) => loads(entries, element),
        ShadeType::Struct(number) => {
            let known = &structs[number as usize];
            struct_is_loadable(entries, &known.members)
        }
    }
}
