//! The steps of directives and declarations.

ghost use Rattle.std.specs.Prelude.{◌≡◌, ◌<◌, ◌+◌, ◌++◌, None, OnOk, IfOk, drop, length, map, option_map};
ghost use Rattle.std.specs.List.{flat_map};
ghost use Rattle.shade_steps.specs.Steps.{own_of, steps_of_type, steps_of_value};
ghost use Rattle.shade_steps.specs.Statements.{asks, attrs_steps, maybe, name_of, node_of, var_steps};
ghost use Rattle.shade_steps.specs.Declarations.{decl_steps, directive_steps, first_name, fn_body, fn_head, fn_parts, is_entry, mark_of, marks_of, member_parts, member_role, member_steps, members_steps, param_position, param_steps, requires_steps, result_steps, result_type};

use crate::attributes::{add_attrs, ask, is_entry};
use crate::expressions::{add_type, own_of};
use crate::simple::{add_assert, add_const, add_maybe_type, add_maybe_value, add_var, name_of};
use crate::statements::{Within, add_block};
use crate::step::{AttrMark, FnParts, Level, MemberParts, Position, Step, Task, TypeRole};
use shade_ast::{
    Attr, Block, Decl, DeclKind, Directive, DirectiveKind, Expr, FnResult, Member, Named, Names,
    Var,
};
use shade_base::Place;
use shade_known::Operand;
use sqlite_items::Items;
use std::alloc::{AllocError, Global};

fn mark_of(attr: &Attr) -> AttrMark
    ensures { result ≡ mark_of attr.now }
{
    AttrMark {
        node: attr.node,
        name: attr.name,
    }
}

fn marks_of(alloc: Global, attrs: &Items<Attr>) -> Result<Items<AttrMark>, AllocError>
    ensures { IfOk result (λ l. l ≡ marks_of attrs.now) }
{
    let mut made = Items::new(alloc);
    for attr in attrs.as_slice() {
        made.push(mark_of(attr))?;
    }
    Ok(made)
}

fn parts_of(alloc: Global, member: &Member) -> Result<MemberParts, AllocError>
    ensures { IfOk result (λ parts. parts ≡ member_parts member.now) }
{
    Ok(MemberParts {
        own: Operand {
            node: member.node,
            place: member.place,
        },
        name: member.name,
        ty: own_of(&member.ty),
        attributes: marks_of(alloc, &member.attrs)?,
    })
}

fn all_parts(alloc: Global, members: &Items<Member>) -> Result<Items<MemberParts>, AllocError>
    ensures { IfOk result (λ l. l ≡ map member_parts members.now) }
{
    let mut made = Items::new(alloc);
    for member in members.as_slice() {
        made.push(parts_of(alloc, member)?)?;
    }
    Ok(made)
}

fn add_member(
    alloc: Global,
    names: &Names,
    role: TypeRole,
    member: &Member,
    out: &mut Items<Step>,
) -> Result<(), AllocError>
    ensures { OnOk result (out.new ≡ out.old ++ member_steps names.now role member.now) }
{
    add_attrs(alloc, names, Position::Member, member.attrs.as_slice(), out)?;
    add_type(alloc, &member.ty, role, out)
}

/// For what the type of the member at this place is written.
fn role_at(members: &[Member], at: usize) -> TypeRole
    requires { at < length members.now }
    ensures { result ≡ member_role (drop (at + 1) members.now) }
{
    if at + 1 == members.len() {
        TypeRole::LastMember
    } else {
        TypeRole::Other
    }
}

fn add_members(
    alloc: Global,
    names: &Names,
    members: &[Member],
    out: &mut Items<Step>,
) -> Result<(), AllocError>
    ensures { OnOk result (out.new ≡ out.old ++ members_steps names.now members.now) }
{
    for (i, member) in members.iter().enumerate() {
        add_member(alloc, names, role_at(members, i), member, out)?;
    }
    Ok(())
}

/// Before what the attributes of a parameter stand, by whether its function is an entry.
fn param_position(entry: bool) -> Position
    ensures { result ≡ param_position entry }
{
    if entry {
        Position::Input
    } else {
        Position::Parameter
    }
}

fn add_param(
    alloc: Global,
    names: &Names,
    position: Position,
    param: &Member,
    out: &mut Items<Step>,
) -> Result<(), AllocError>
    ensures { OnOk result (out.new ≡ out.old ++ param_steps names.now position param.now) }
{
    add_attrs(alloc, names, position, param.attrs.as_slice(), out)?;
    add_type(alloc, &param.ty, TypeRole::Parameter, out)?;
    let parts = parts_of(alloc, param)?;
    ask(name_of(param.name), Task::Parameter(parts), out)
}

fn add_params(
    alloc: Global,
    names: &Names,
    position: Position,
    params: &Items<Member>,
    out: &mut Items<Step>,
) -> Result<(), AllocError>
    ensures { OnOk result (out.new ≡ out.old ++ flat_map (param_steps names.now position) params.now) }
{
    for param in params.as_slice() {
        add_param(alloc, names, position, param, out)?;
    }
    Ok(())
}

fn add_result(
    alloc: Global,
    names: &Names,
    given: &Option<FnResult>,
    out: &mut Items<Step>,
) -> Result<(), AllocError>
    ensures { OnOk result (out.new ≡ out.old ++ maybe (result_steps names.now) given.now) }
{
    let Some(given) = given else {
        return Ok(());
    };
    add_attrs(alloc, names, Position::Result, given.attrs.as_slice(), out)?;
    add_type(alloc, &given.ty, TypeRole::Other, out)?;
    ask(own_of(&given.ty), Task::Result, out)
}

fn result_type(given: &Option<FnResult>) -> Option<Operand>
    ensures { result ≡ option_map result_type given.now }
{
    match given {
        Some(given) => Some(own_of(&given.ty)),
        None => None,
    }
}

fn fn_parts(
    alloc: Global,
    place: Place,
    attrs: &Items<Attr>,
    params: &Items<Member>,
    given: &Option<FnResult>,
) -> Result<FnParts, AllocError>
    ensures { IfOk result (λ parts. parts ≡ fn_parts place attrs.now params.now given.now) }
{
    let attributes = marks_of(alloc, attrs)?;
    Ok(FnParts {
        place,
        attributes,
        parameters: all_parts(alloc, params)?,
        result: result_type(given),
    })
}

/// Adds the steps of the attributes and the parameters of a function.
fn add_signature(
    alloc: Global,
    names: &Names,
    attrs: &Items<Attr>,
    params: &Items<Member>,
    out: &mut Items<Step>,
) -> Result<(), AllocError>
    ensures { OnOk result (out.new ≡ out.old ++ (attrs_steps names.now Position.Function attrs.now ++ flat_map (param_steps names.now (param_position (is_entry names.now attrs.now))) params.now)) }
{
    let position = param_position(is_entry(names, attrs.as_slice()));
    add_attrs(alloc, names, Position::Function, attrs.as_slice(), out)?;
    add_params(alloc, names, position, params, out)
}

/// The parts of a function but for its body.
#[derive(Clone, Copy)]
struct FnHead<'t> {
    place: Place,
    name: Named,
    attrs: &'t Items<Attr>,
    params: &'t Items<Member>,
    given: &'t Option<FnResult>,
}

/// Adds the steps of what stands before the body of a function.
fn add_head(
    alloc: Global,
    names: &Names,
    head: FnHead<'_>,
    out: &mut Items<Step>,
) -> Result<(), AllocError>
    ensures { OnOk result (out.new ≡ out.old ++ fn_head names.now head.entry.place head.entry.attrs.now head.entry.name head.entry.params.now head.entry.given.now) }
{
    add_signature(alloc, names, head.attrs, head.params, out)?;
    add_result(alloc, names, head.given, out)?;
    let parts = fn_parts(alloc, head.place, head.attrs, head.params, head.given)?;
    ask(name_of(head.name), Task::Function(parts), out)
}

/// Adds the steps of the body of the function with this name, which is this declaration.
fn add_body(
    alloc: Global,
    names: &Names,
    own: Operand,
    name: Named,
    body: &Block,
    out: &mut Items<Step>,
) -> Result<(), AllocError>
    ensures { OnOk result (out.new ≡ out.old ++ fn_body names.now own name body.now) }
{
    let function = name.node;
    add_block(alloc, Within { names, function }, body, out)?;
    ask(own, Task::Finished { function }, out)
}

fn add_struct(
    alloc: Global,
    names: &Names,
    at: (Place, Named),
    members: &Items<Member>,
    out: &mut Items<Step>,
) -> Result<(), AllocError>
    ensures { OnOk result (out.new ≡ out.old ++ (members_steps names.now members.now ++ asks (name_of at.1) (Task.Struct at.0 at.1.name (map member_parts members.now)))) }
{
    add_members(alloc, names, members.as_slice(), out)?;
    let task = Task::Struct {
        place: at.0,
        name: at.1.name,
        members: all_parts(alloc, members)?,
    };
    ask(name_of(at.1), task, out)
}

fn add_global(
    alloc: Global,
    names: &Names,
    decl: (Place, &Items<Attr>),
    var: &Var,
    out: &mut Items<Step>,
) -> Result<(), AllocError>
    ensures { OnOk result (out.new ≡ out.old ++ (attrs_steps names.now Position.Variable decl.entry.1.now ++ var_steps Level.Module decl.entry.0 (marks_of decl.entry.1.now) var.now)) }
{
    let (place, attrs) = decl;
    add_attrs(alloc, names, Position::Variable, attrs.as_slice(), out)?;
    let marks = marks_of(alloc, attrs)?;
    add_var(alloc, (Level::Module, place), marks, var, out)
}

fn add_alias(alloc: Global, name: Named, ty: &Expr, out: &mut Items<Step>) -> Result<(), AllocError>
    ensures { OnOk result (out.new ≡ out.old ++ (steps_of_type TypeRole.Alias ty.now ++ asks (name_of name) (Task.Alias (node_of ty.now)))) }
{
    add_type(alloc, ty, TypeRole::Alias, out)?;
    ask(name_of(name), Task::Alias(own_of(ty)), out)
}

fn add_override(
    alloc: Global,
    names: &Names,
    attrs: &Items<Attr>,
    ty: &Option<Expr>,
    value: &Option<Expr>,
    out: &mut Items<Step>,
) -> Result<(), AllocError>
    ensures { OnOk result (out.new ≡ out.old ++ (attrs_steps names.now Position.Override attrs.now ++ maybe (steps_of_type TypeRole.Other) ty.now ++ maybe (steps_of_value None) value.now)) }
{
    add_attrs(alloc, names, Position::Override, attrs.as_slice(), out)?;
    add_maybe_type(alloc, ty, TypeRole::Other, out)?;
    add_maybe_value(alloc, value, out)
}

/// A node with the place of its first token.
fn node_at(node: u32, place: Place) -> Operand
    ensures { result ≡ own_of node place }
{
    Operand { node, place }
}

/// Adds the steps of a declaration. Takes memory for the steps.
pub fn add_decl(
    alloc: Global,
    names: &Names,
    decl: &Decl,
    out: &mut Items<Step>,
) -> Result<(), AllocError>
    ensures { OnOk result (out.new ≡ out.old ++ decl_steps names.now decl.now) }
{
    let place = decl.place;
    match &decl.kind {
        DeclKind::Empty => Ok(()),
        DeclKind::Alias { name, ty } => add_alias(alloc, *name, ty, out),
        DeclKind::Const(binding) => add_const(alloc, binding, out),
        DeclKind::ConstAssert(condition) => add_assert(alloc, condition, place, out),
        DeclKind::Struct { name, members, .. } => {
            add_struct(alloc, names, (place, *name), members, out)
        }
        DeclKind::Var { attrs, var } => add_global(alloc, names, (place, attrs), var, out),
        DeclKind::Override {
            attrs,
            keyword,
            ty,
            value,
            ..
        } => {
            add_override(alloc, names, attrs, ty, value, out)?;
            ask(node_at(decl.node, *keyword), Task::Override, out)
        }
        DeclKind::Fn {
            attrs,
            name,
            params,
            result: given,
            body,
            ..
        } => {
            let head = FnHead {
                place,
                name: *name,
                attrs,
                params,
                given,
            };
            add_head(alloc, names, head, out)?;
            add_body(alloc, names, node_at(decl.node, place), *name, body, out)
        }
    }
}

fn first_name(listed: &[Named]) -> Option<u32>
    ensures { result ≡ first_name listed.now }
{
    match listed {
        [first, ..] => Some(first.name),
        _ => None,
    }
}

fn add_requires(listed: &[Named], out: &mut Items<Step>) -> Result<(), AllocError>
    ensures { OnOk result (out.new ≡ out.old ++ flat_map requires_steps listed.now) }
{
    for name in listed {
        ask(name_of(*name), Task::Requires(name.name), out)?;
    }
    Ok(())
}

/// Adds the steps of a directive. Takes memory for the steps.
pub fn add_directive(directive: &Directive, out: &mut Items<Step>) -> Result<(), AllocError>
    ensures { OnOk result (out.new ≡ out.old ++ directive_steps directive.now) }
{
    match &directive.kind {
        DirectiveKind::Diagnostic { .. } => Ok(()),
        DirectiveKind::Requires { names: listed, .. } => add_requires(listed.as_slice(), out),
        DirectiveKind::Enable { names: listed, .. } => {
            let own = node_at(directive.node, directive.place);
            ask(own, Task::Enables(first_name(listed.as_slice())), out)
        }
    }
}
