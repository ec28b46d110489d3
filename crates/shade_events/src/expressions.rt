//! What happens to names in expressions, types and attributes.

ghost use Rattle.std.specs.Prelude.{◌≡◌, ◌++◌, ◌∷◌, [], OnOk, map};
ghost use Rattle.std.specs.List.{flat_map};
ghost use Rattle.shade_events.specs.Filters.{filter_of};
ghost use Rattle.shade_events.specs.Events.{all_in, arguments_events, attr_events, attr_name_events, attr_role, attrs_events, callee, filter_events, looked_up, maybe, named, node_of, part, range, lacking, used, uses_in};

use crate::event::{Event, Role};
use crate::filters::{Filter, bad_severity, filter_of};
use crate::words::is_builtin;
use shade_ast::{Arguments, Attr, AttrName, Expr, ExprKind, Named, Names};
use shade_base::Place;
use sqlite_items::Items;
use std::alloc::AllocError;

fn part(role: Role) -> Role
    ensures { result ≡ part role }
{
    match role {
        Role::Ignored => Role::Ignored,
        Role::Used => Role::Used,
        Role::Called => Role::Used,
    }
}

fn callee(role: Role) -> Role
    ensures { result ≡ callee role }
{
    match role {
        Role::Ignored => Role::Ignored,
        Role::Used => Role::Called,
        Role::Called => Role::Called,
    }
}

fn look_up(role: Role, name: Named, out: &mut Items<Event>) -> Result<(), AllocError>
    ensures { OnOk result (out.new ≡ out.old ++ looked_up role name) }
{
    match role {
        Role::Ignored => Ok(()),
        Role::Used => out.push(Event::Uses {
            name,
            called: false,
        }),
        Role::Called => out.push(Event::Uses { name, called: true }),
    }
}

fn own_name(e: &Expr, name: u32) -> Named
    ensures { result ≡ named name e.now.node e.now.place }
{
    Named {
        node: e.node,
        place: e.place,
        name,
    }
}

/// Adds what happens to the names of an expression.
#[cycle(uses)]
pub fn add_uses(e: &Expr, role: Role, out: &mut Items<Event>) -> Result<(), AllocError>
    ensures { OnOk result (out.new ≡ out.old ++ uses_in e.now role) }
{
    let inner = part(role);
    match &e.kind {
        ExprKind::Infix { left, right, .. } => {
            add_uses(left.get(), inner, out)?;
            add_uses(right.get(), inner, out)?;
        }
        ExprKind::Prefix { operand, .. } => add_uses(operand.get(), inner, out)?,
        ExprKind::Member { whole, member, .. } => {
            add_uses(whole.get(), inner, out)?;
            out.push(Event::Node(member.node))?;
        }
        ExprKind::Index { whole, index, .. } => {
            add_uses(whole.get(), inner, out)?;
            add_uses(index.get(), inner, out)?;
        }
        ExprKind::Call {
            callee: called,
            arguments,
            ..
        } => {
            add_uses(called.get(), callee(role), out)?;
            add_all_uses(arguments, inner, out)?;
        }
        ExprKind::Template {
            name,
            arguments,
            ..
        } => {
            look_up(role, own_name(e, *name), out)?;
            add_all_uses(arguments, inner, out)?;
        }
        ExprKind::Name(name) => look_up(role, own_name(e, *name), out)?,
        ExprKind::Number { .. } => (),
        ExprKind::True => (),
        ExprKind::False => (),
        ExprKind::Paren(inside) => add_uses(inside.get(), inner, out)?,
    }
    out.push(Event::Node(e.node))
}

#[cycle(uses)]
fn add_all_uses(
    arguments: &Items<Expr>,
    role: Role,
    out: &mut Items<Event>,
) -> Result<(), AllocError>
    ensures { OnOk result (out.new ≡ out.old ++ all_in role (map uses_in arguments.now)) }
{
    for e in arguments.as_slice() {
        add_uses(e, role, out)?;
    }
    Ok(())
}

/// Adds what happens in an expression that is used, where there is one.
pub fn add_maybe(e: &Option<Expr>, out: &mut Items<Event>) -> Result<(), AllocError>
    ensures { OnOk result (out.new ≡ out.old ++ maybe used e.now) }
{
    match e {
        Some(e) => add_uses(e, Role::Used, out),
        None => Ok(()),
    }
}

/// Adds the node of a name.
pub fn add_node(name: Named, out: &mut Items<Event>) -> Result<(), AllocError>
    ensures { OnOk result (out.new ≡ out.old ++ node_of name) }
{
    out.push(Event::Node(name.node))
}

fn attr_role(names: &Names, name: AttrName) -> Role
    ensures { result ≡ attr_role names.now name }
{
    match name {
        AttrName::Name(name) => {
            if is_builtin(names, name.name) {
                Role::Ignored
            } else {
                Role::Used
            }
        }
        AttrName::Diagnostic(_) => Role::Ignored,
        AttrName::Const(_) => Role::Used,
    }
}

fn add_attr_name(name: AttrName, out: &mut Items<Event>) -> Result<(), AllocError>
    ensures { OnOk result (out.new ≡ out.old ++ attr_name_events name) }
{
    match name {
        AttrName::Name(name) => add_node(name, out),
        AttrName::Diagnostic(_) => Ok(()),
        AttrName::Const(_) => Ok(()),
    }
}

fn add_arguments(
    arguments: &Option<Arguments>,
    role: Role,
    out: &mut Items<Event>,
) -> Result<(), AllocError>
    ensures { OnOk result (out.new ≡ out.old ++ maybe (arguments_events role) arguments.now) }
{
    match arguments {
        Some(arguments) => add_all_uses(&arguments.items, role, out),
        None => Ok(()),
    }
}

/// Adds that a severity is lacking at a place, where one is given.
pub fn add_lacking(place: Option<Place>, out: &mut Items<Event>) -> Result<(), AllocError>
    ensures { OnOk result (out.new ≡ out.old ++ lacking place) }
{
    match place {
        Some(place) => out.push(Event::LacksSeverity(place)),
        None => Ok(()),
    }
}

fn add_attr(names: &Names, attr: &Attr, out: &mut Items<Event>) -> Result<(), AllocError>
    ensures { OnOk result (out.new ≡ out.old ++ attr_events names.now attr.now) }
{
    add_attr_name(attr.name, out)?;
    add_arguments(&attr.arguments, attr_role(names, attr.name), out)?;
    add_lacking(bad_severity(names, attr), out)?;
    out.push(Event::Node(attr.node))
}

/// Adds what happens in some attributes.
pub fn add_attrs(names: &Names, attrs: &[Attr], out: &mut Items<Event>) -> Result<(), AllocError>
    ensures { OnOk result (out.new ≡ out.old ++ attrs_events names.now attrs.now) }
{
    for attr in attrs {
        add_attr(names, attr, out)?;
    }
    Ok(())
}

/// Adds a filter, where there is one.
pub fn add_filter(filter: Option<Filter>, out: &mut Items<Event>) -> Result<(), AllocError>
    ensures { OnOk result (out.new ≡ out.old ++ filter_events filter) }
{
    match filter {
        Some(filter) => out.push(Event::Filters(filter)),
        None => Ok(()),
    }
}

fn add_filters(names: &Names, attrs: &[Attr], out: &mut Items<Event>) -> Result<(), AllocError>
    ensures { OnOk result (out.new ≡ out.old ++ flat_map (λ a. filter_events (filter_of names.now a)) attrs.now) }
{
    for attr in attrs {
        add_filter(filter_of(names, attr), out)?;
    }
    Ok(())
}

/// Adds what happens in the attributes before a range, and that the range begins, with its filters.
pub fn add_range(names: &Names, attrs: &[Attr], out: &mut Items<Event>) -> Result<(), AllocError>
    ensures { OnOk result (out.new ≡ out.old ++ range names.now attrs.now) }
{
    add_attrs(names, attrs, out)?;
    out.push(Event::Covers)?;
    add_filters(names, attrs, out)
}
