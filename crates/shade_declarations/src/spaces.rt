//! How the space of a variable goes together with all else.

ghost use Rattle.std.specs.Prelude.{◌≡◌, ◌&&◌};
ghost use Rattle.shade_events.specs.Words.{is_word};
ghost use Rattle.shade_core.specs.Roots.{is_writable};
ghost use Rattle.shade_known.specs.Lookups.{what_in};
ghost use Rattle.shade_calls.specs.Templates.{access_by, access_named, granted as granted_by, is_bad, is_pointer, own_access, space_named};
ghost use Rattle.shade_declarations.specs.Spaces.{binding_word, granted, group_word, has_attribute, is_called, is_of_function, is_of_module, is_resource, keeps_access, keeps_attributes, keeps_by, keeps_space, keeps_value, may_access, may_begin, may_bind, may_stand, own_space, space_of, space_suits, suits_by, written_access};

use shade_ast::{AttrName, Names};
use shade_events::text_of;
use shade_known::{AccessWord, Known, Operand, What, what_at};
use shade_steps::{AttrMark, Level, VarParts};
use shade_values::{Access, ShadeType, Space};

fn own_space(level: Level) -> Option<Space>
    ensures { result ≡ own_space level }
{
    match level {
        Level::Module => None,
        Level::Function => Some(Space::Function),
    }
}

/// The space that a word is, if it is one.
fn space_named(known: &Known, word: Operand) -> Option<Space>
    ensures { result ≡ space_named (what_in known.now.facts word.node) }
{
    match what_at(&known.facts, word.node) {
        Some(What::Space(space)) => Some(*space),
        _ => None,
    }
}

/// The space that is written; a local variable without one is of its function.
pub(crate) fn space_of(known: &Known, level: Level, word: Option<Operand>) -> Option<Space>
    ensures { result ≡ space_of known.now.facts level word }
{
    match word {
        Some(word) => space_named(known, word),
        None => own_space(level),
    }
}

/// The access that a word is, if it is one.
fn access_named(known: &Known, word: Operand) -> Option<AccessWord>
    ensures { result ≡ access_named (what_in known.now.facts word.node) }
{
    match what_at(&known.facts, word.node) {
        Some(What::Access(access)) => Some(*access),
        _ => None,
    }
}

/// The access that is written, if one is.
pub(crate) fn written_access(known: &Known, word: Option<Operand>) -> Option<AccessWord>
    ensures { result ≡ written_access known.now.facts word }
{
    match word {
        Some(word) => access_named(known, word),
        None => None,
    }
}

fn own_access(space: Space) -> Access
    ensures { result ≡ own_access space }
{
    match space {
        Space::Storage | Space::Uniform => Access::Read,
        Space::Function | Space::Private | Space::Workgroup => Access::ReadWrite,
    }
}

fn access_for(space: Space, word: AccessWord) -> Access
    ensures { result ≡ granted_by space word }
{
    match (space, word) {
        (Space::Storage, AccessWord::ReadWrite) => Access::ReadWrite,
        _ => own_access(space),
    }
}

fn access_by(space: Space, word: Option<AccessWord>) -> Access
    ensures { result ≡ access_by space word }
{
    match word {
        Some(word) => access_for(space, word),
        None => own_access(space),
    }
}

/// What a shader may do with the memory of a variable.
pub(crate) fn granted(space: Option<Space>, word: Option<AccessWord>) -> Access
    ensures { result ≡ granted space word }
{
    match space {
        Some(space) => access_by(space, word),
        None => Access::ReadWrite,
    }
}

fn is_of_module(space: Option<Space>) -> bool
    ensures { result ≡ is_of_module space }
{
    match space {
        None => false,
        Some(Space::Function) => false,
        Some(_) => true,
    }
}

fn is_of_function(space: Option<Space>) -> bool
    ensures { result ≡ is_of_function space }
{
    match space {
        Some(Space::Function) => true,
        _ => false,
    }
}

fn may_stand(level: Level, space: Option<Space>) -> bool
    ensures { result ≡ may_stand level space }
{
    match level {
        Level::Module => is_of_module(space),
        Level::Function => is_of_function(space),
    }
}

fn is_bad(space: Space, word: AccessWord) -> bool
    ensures { result ≡ is_bad space word }
{
    match (space, word) {
        (Space::Storage, AccessWord::Read) => false,
        (Space::Storage, AccessWord::ReadWrite) => false,
        _ => true,
    }
}

fn may_access(space: Option<Space>, word: Option<AccessWord>) -> bool
    ensures { result ≡ may_access space word }
{
    let Some(space) = space else {
        return false;
    };
    match word {
        Some(word) => !is_bad(space, word),
        None => false,
    }
}

fn keeps_access(written: Option<Operand>, space: Option<Space>, word: Option<AccessWord>) -> bool
    ensures { result ≡ keeps_access written space word }
{
    match written {
        Some(_) => may_access(space, word),
        None => true,
    }
}

fn may_begin(space: Option<Space>) -> bool
    ensures { result ≡ may_begin space }
{
    match space {
        Some(Space::Workgroup) => false,
        Some(Space::Storage) => false,
        Some(Space::Uniform) => false,
        _ => true,
    }
}

fn keeps_value(value: Option<Operand>, space: Option<Space>) -> bool
    ensures { result ≡ keeps_value value space }
{
    match value {
        Some(_) => may_begin(space),
        None => true,
    }
}

// ---- attributes

fn is_group(text: &str) -> bool
    ensures { result ≡ is_word group_word text.now }
{
    match text {
        "group" => true,
        _ => false,
    }
}

fn is_binding(text: &str) -> bool
    ensures { result ≡ is_word binding_word text.now }
{
    match text {
        "binding" => true,
        _ => false,
    }
}

fn calls_group(names: &Names, name: AttrName) -> bool
    ensures { result ≡ is_called group_word names.now name }
{
    match name {
        AttrName::Name(name) => match text_of(names, name.name) {
            Some(text) => is_group(text),
            None => false,
        },
        AttrName::Diagnostic(_) => false,
        AttrName::Const(_) => false,
    }
}

fn calls_binding(names: &Names, name: AttrName) -> bool
    ensures { result ≡ is_called binding_word names.now name }
{
    match name {
        AttrName::Name(name) => match text_of(names, name.name) {
            Some(text) => is_binding(text),
            None => false,
        },
        AttrName::Diagnostic(_) => false,
        AttrName::Const(_) => false,
    }
}

fn has_group(names: &Names, marks: &[AttrMark]) -> bool
    ensures { result ≡ has_attribute group_word names.now marks.now }
{
    marks.iter().any(|mark| calls_group(names, mark.name))
}

fn has_binding(names: &Names, marks: &[AttrMark]) -> bool
    ensures { result ≡ has_attribute binding_word names.now marks.now }
{
    marks.iter().any(|mark| calls_binding(names, mark.name))
}

/// Whether a variable comes from outside.
fn is_resource(space: Option<Space>) -> bool
    ensures { result ≡ is_resource space }
{
    match space {
        Some(Space::Storage) => true,
        Some(Space::Uniform) => true,
        _ => false,
    }
}

fn may_bind(resource: bool, group: bool, binding: bool) -> bool
    ensures { result ≡ may_bind resource group binding }
{
    if resource {
        group && binding
    } else {
        !(group || binding)
    }
}

fn keeps_attributes(space: Option<Space>, names: &Names, marks: &[AttrMark]) -> bool
    ensures { result ≡ keeps_attributes space names.now marks.now }
{
    may_bind(
        is_resource(space),
        has_group(names, marks),
        has_binding(names, marks),
    )
}

fn all_of(a: bool, b: bool, c: bool, d: bool) -> bool
    ensures { result ≡ (a && (b && (c && d))) }
{
    a && (b && (c && d))
}

fn keeps_by(space: Option<Space>, known: &Known, names: &Names, var: &VarParts) -> bool
    ensures { result ≡ keeps_by space known.now.facts names.now var.now }
{
    all_of(
        may_stand(var.level, space),
        keeps_access(var.access, space, written_access(known, var.access)),
        keeps_value(var.value, space),
        keeps_attributes(space, names, var.attributes.as_slice()),
    )
}

/// Whether the space of a variable goes together with where it stands, its access, its value and its attributes.
pub(crate) fn keeps_space(known: &Known, names: &Names, var: &VarParts) -> bool
    ensures { result ≡ keeps_space known.now.facts names.now var.now }
{
    keeps_by(space_of(known, var.level, var.space), known, names, var)
}

/// Whether a type is that of a pointer.
pub(crate) fn is_pointer(ty: ShadeType) -> bool
    ensures { result ≡ is_pointer ty }
{
    match ty {
        ShadeType::Pointer(_, _, _) => true,
        _ => false,
    }
}

fn space_suits(space: Option<Space>, access: Access, holds_bool: bool, holds_atomic: bool) -> bool
    ensures { result ≡ space_suits space access holds_bool holds_atomic }
{
    match space {
        None => true,
        Some(Space::Workgroup) => true,
        Some(Space::Storage) => !holds_bool && (is_writable(access) || !holds_atomic),
        Some(Space::Uniform) => !(holds_bool || holds_atomic),
        Some(Space::Private) => !holds_atomic,
        Some(Space::Function) => !holds_atomic,
    }
}

fn is_writable(access: Access) -> bool
    ensures { result ≡ is_writable access }
{
    match access {
        Access::Read => false,
        Access::ReadWrite => true,
    }
}

/// Whether a variable of a space may have a type, by whether that holds a bool, and an atomic.
pub(crate) fn suits_by(
    space: Option<Space>,
    access: Access,
    ty: ShadeType,
    holds_bool: bool,
    holds_atomic: bool,
) -> bool
    ensures { result ≡ suits_by space access ty holds_bool holds_atomic }
{
    !is_pointer(ty) && space_suits(space, access, holds_bool, holds_atomic)
}
