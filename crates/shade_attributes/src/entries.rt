//! What an entry must have.

ghost use Rattle.std.specs.Prelude.{◌≡◌, ◌&&◌, IfOk};
ghost use Rattle.std.specs.List.{list_all, list_any};
ghost use Rattle.shade_attributes.specs.Words.{integer_of};
ghost use Rattle.shade_known.specs.Keeps.{IsFoundOf};
ghost use Rattle.shade_values.specs.Table.{Table};
ghost use Rattle.shade_attributes.specs.Entries.{are_sizes, attr_fits, declares_inputs, entry_answer, entry_by, fits, has_builtin, has_size, has_sizes, has_stage, is_builtin_kind, is_entry, is_handed, is_input, is_number, is_size, is_size_kind, is_stage_kind, is_struct, is_struct_of_inputs, is_triple, is_unsigned, is_whole, written_type};

use crate::attribute::{breaks, integer_of};
use crate::words::{Input, Kind, input_named, kind_named, only_word};
use shade_ast::{Arguments, Attr, Decl, DeclKind, Expr, FnResult, Member, Names};
use shade_base::Place;
use shade_known::{Found, Known, TypeRule, TypingFault, What, type_by_id, what_at};
use shade_values::{Scalar, ShadeType};

fn is_stage_kind(kind: Option<Kind>) -> bool
    ensures { result ≡ is_stage_kind kind }
{
    match kind {
        Some(Kind::Compute) => true,
        _ => false,
    }
}

fn is_size_kind(kind: Option<Kind>) -> bool
    ensures { result ≡ is_size_kind kind }
{
    match kind {
        Some(Kind::WorkgroupSize) => true,
        _ => false,
    }
}

fn is_builtin_kind(kind: Option<Kind>) -> bool
    ensures { result ≡ is_builtin_kind kind }
{
    match kind {
        Some(Kind::Builtin) => true,
        _ => false,
    }
}

fn has_stage(names: &Names, attrs: &[Attr]) -> bool
    ensures { result ≡ has_stage names.now attrs.now }
{
    attrs
        .iter()
        .any(|attr| is_stage_kind(kind_named(names, attr.name)))
}

fn has_size(names: &Names, attrs: &[Attr]) -> bool
    ensures { result ≡ has_size names.now attrs.now }
{
    attrs
        .iter()
        .any(|attr| is_size_kind(kind_named(names, attr.name)))
}

fn has_builtin(names: &Names, attrs: &[Attr]) -> bool
    ensures { result ≡ has_builtin names.now attrs.now }
{
    attrs
        .iter()
        .any(|attr| is_builtin_kind(kind_named(names, attr.name)))
}

fn is_size(number: Option<i64>) -> bool
    ensures { result ≡ is_size number }
{
    match number {
        Some(number) => 0 < number && number <= 4294967295,
        None => false,
    }
}

fn have_sizes(known: &Known, arguments: &[Expr]) -> bool
    ensures { result ≡ list_all (λ e. is_size (integer_of known.now e.node)) arguments.now }
{
    arguments.iter().all(|e| is_size(integer_of(known, e.node)))
}

fn are_sizes(known: &Known, arguments: &Option<Arguments>) -> bool
    ensures { result ≡ are_sizes known.now arguments.now }
{
    let Some(arguments) = arguments else {
        return true;
    };
    have_sizes(known, arguments.items.as_slice())
}

fn has_sizes(names: &Names, known: &Known, attrs: &[Attr]) -> bool
    ensures { result ≡ has_sizes names.now known.now attrs.now }
{
    attrs.iter().all(|attr| {
        !is_size_kind(kind_named(names, attr.name)) || are_sizes(known, &attr.arguments)
    })
}

fn written_type(known: &Known, node: u32) -> Option<ShadeType>
    ensures { result ≡ written_type known.now node }
{
    match what_at(&known.facts, node) {
        Some(What::Type { ty, .. }) => type_by_id(&known.types, *ty),
        _ => None,
    }
}

fn is_unsigned(scalar: Scalar) -> bool
    ensures { result ≡ is_unsigned scalar }
{
    match scalar {
        Scalar::U32 => true,
        _ => false,
    }
}

fn is_number(ty: Option<ShadeType>) -> bool
    ensures { result ≡ is_number ty }
{
    match ty {
        Some(ShadeType::Plain(scalar)) => is_unsigned(scalar),
        _ => false,
    }
}

fn is_triple(ty: Option<ShadeType>) -> bool
    ensures { result ≡ is_triple ty }
{
    match ty {
        Some(ShadeType::Vector(count, scalar)) => count == 3 && is_unsigned(scalar),
        _ => false,
    }
}

fn fits(input: Option<Input>, ty: Option<ShadeType>) -> bool
    ensures { result ≡ fits input ty }
{
    match input {
        Some(Input::LocalIndex) => is_number(ty),
        Some(Input::LocalId | Input::GlobalId | Input::GroupId | Input::GroupCount) => is_triple(
            ty,
        ),
        None => false,
    }
}

fn attr_fits(names: &Names, ty: Option<ShadeType>, attr: &Attr) -> bool
    ensures { result ≡ attr_fits names.now ty attr.now }
{
    is_builtin_kind(kind_named(names, attr.name))
        && fits(input_named(names, only_word(&attr.arguments)), ty)
}

fn is_input(names: &Names, known: &Known, member: &Member) -> bool
    ensures { result ≡ is_input names.now known.now member.now }
{
    let ty = written_type(known, member.ty.node);
    let attrs = member.attrs.as_slice();
    attrs.iter().any(|attr| attr_fits(names, ty, attr))
}

fn is_struct(number: u32, ty: Option<ShadeType>) -> bool
    ensures { result ≡ is_struct number ty }
{
    match ty {
        Some(ShadeType::Struct(other)) => other == number,
        _ => false,
    }
}

fn are_inputs(names: &Names, known: &Known, members: &[Member]) -> bool
    ensures { result ≡ list_all (is_input names.now known.now) members.now }
{
    members.iter().all(|member| is_input(names, known, member))
}

fn declares_inputs(names: &Names, known: &Known, number: u32, kind: &DeclKind) -> bool
    ensures { result ≡ declares_inputs names.now known.now number kind.now }
{
    match kind {
        DeclKind::Struct { name, members, .. } => {
            is_struct(number, written_type(known, name.node))
                && are_inputs(names, known, members.as_slice())
        }
        _ => false,
    }
}

fn are_declared(names: &Names, known: &Known, decls: &[Decl], number: u32) -> bool
    ensures { result ≡ list_any (λ d. declares_inputs names.now known.now number d.kind) decls.now }
{
    decls
        .iter()
        .any(|decl| declares_inputs(names, known, number, &decl.kind))
}

fn is_struct_of_inputs(names: &Names, known: &Known, decls: &[Decl], ty: Option<ShadeType>) -> bool
    ensures { result ≡ is_struct_of_inputs names.now known.now decls.now ty }
{
    match ty {
        Some(ShadeType::Struct(number)) => are_declared(names, known, decls, number),
        _ => false,
    }
}

fn is_handed(names: &Names, known: &Known, decls: &[Decl], member: &Member) -> bool
    ensures { result ≡ is_handed names.now known.now decls.now member.now }
{
    if is_input(names, known, member) {
        return true;
    }
    let ty = written_type(known, member.ty.node);
    !has_builtin(names, member.attrs.as_slice()) && is_struct_of_inputs(names, known, decls, ty)
}

fn are_handed(names: &Names, known: &Known, decls: &[Decl], params: &[Member]) -> bool
    ensures { result ≡ list_all (is_handed names.now known.now decls.now) params.now }
{
    params
        .iter()
        .all(|param| is_handed(names, known, decls, param))
}

fn is_whole(names: &Names, known: &Known, attrs: &[Attr], given: &Option<FnResult>) -> bool
    ensures { result ≡ is_whole names.now known.now attrs.now given.now }
{
    has_stage(names, attrs)
        && has_size(names, attrs)
        && has_sizes(names, known, attrs)
        && given.is_none()
}

fn is_entry(names: &Names, attrs: &[Attr]) -> bool
    ensures { result ≡ is_entry names.now attrs.now }
{
    has_stage(names, attrs) || has_size(names, attrs)
}

fn entry_by(entry: bool, whole: bool, place: Place) -> Result<Found, TypingFault>
    ensures answer { result ≡ entry_by entry whole place }
    ensures of { (t : Table) → IfOk result (IsFoundOf t) }
{
    if entry && !whole {
        return Err(breaks(place, TypeRule::Entry));
    }
    Ok(Found::Nothing)
}

/// Gives nothing of a declaration among those of a text: a function with `@compute` or `@workgroup_size` has both, sizes from 1 to
/// 4,294,967,295, no result, and inputs alone, which are parameters with a `@builtin` that fits their types, or whose type is a struct
/// with such members alone.
///
/// Else the rule of entries fails at the first token of the function. Takes no memory, and for a parameter of struct type the time to look
/// over all declarations.
pub fn entry_found(
    names: &Names,
    known: &Known,
    decls: &[Decl],
    decl: &Decl,
) -> Result<Found, TypingFault>
    ensures answer { result ≡ entry_answer names.now known.now decls.now decl.now }
    ensures of { (t : Table) → IfOk result (IsFoundOf t) }
{
    match &decl.kind {
        DeclKind::Fn {
            attrs,
            params,
            result: given,
            ..
        } => {
            let entry = is_entry(names, attrs.as_slice());
            let whole = is_whole(names, known, attrs.as_slice(), given)
                && are_handed(names, known, decls, params.as_slice());
            entry_by(entry, whole, decl.place)
        }
        _ => Ok(Found::Nothing),
    }
}
