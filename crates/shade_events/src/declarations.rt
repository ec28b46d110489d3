//! What happens to names and filters in declarations, directives and whole texts.

ghost use Rattle.std.specs.Prelude.{◌≡◌, ◌++◌, ◌∷◌, [], IfOk, OnOk};
ghost use Rattle.std.specs.List.{flat_map, list_any};
ghost use Rattle.shade_events.specs.Filters.{directive_filter};
ghost use Rattle.shade_events.specs.Events.{attrs_events, decl_events, decl_kind_events, declared_name, declared_node, directive_events, directive_kind_events, directives_events, filter_events, head_events, heading, is_entry, is_entry_name, maybe, member_declares, member_uses, node_of, param_events, range, range_end, result_events, rule_events, scope, tree_events, used, var_uses};

use crate::event::{Event, Role};
use crate::expressions::{
    add_attrs, add_filter, add_lacking, add_maybe, add_node, add_range, add_uses,
};
use crate::filters::{bad_directive, directive_filter};
use crate::statements::{add_binding_uses, add_body, add_declaration, add_var_uses, end_range};
use crate::words::makes_entry;
use shade_ast::{
    Attr, AttrName, Decl, DeclKind, Directive, DirectiveKind, Expr, FnResult, Member, Named, Names,
    Rule, Tree, Var,
};
use sqlite_items::Items;
use std::alloc::{AllocError, Global};

fn add_member(names: &Names, member: &Member, out: &mut Items<Event>) -> Result<(), AllocError>
    ensures { OnOk result (out.new ≡ out.old ++ member_uses names.now member.now) }
{
    add_attrs(names, member.attrs.as_slice(), out)?;
    add_node(member.name, out)?;
    add_uses(&member.ty, Role::Used, out)?;
    out.push(Event::Node(member.node))
}

fn add_members(names: &Names, members: &[Member], out: &mut Items<Event>) -> Result<(), AllocError>
    ensures { OnOk result (out.new ≡ out.old ++ flat_map (member_uses names.now) members.now) }
{
    for member in members {
        add_member(names, member, out)?;
    }
    Ok(())
}

fn add_member_names(members: &[Member], out: &mut Items<Event>) -> Result<(), AllocError>
    ensures { OnOk result (out.new ≡ out.old ++ flat_map member_declares members.now) }
{
    for member in members {
        add_declaration(member.name, out)?;
    }
    Ok(())
}

/// Adds that the names of a struct's members are those of one scope.
fn add_member_scope(members: &[Member], out: &mut Items<Event>) -> Result<(), AllocError>
    ensures { OnOk result (out.new ≡ out.old ++ scope (flat_map member_declares members.now)) }
{
    out.push(Event::Opens)?;
    add_member_names(members, out)?;
    out.push(Event::Closes)
}

fn add_param(names: &Names, param: &Member, out: &mut Items<Event>) -> Result<(), AllocError>
    ensures { OnOk result (out.new ≡ out.old ++ param_events names.now param.now) }
{
    add_member(names, param, out)?;
    add_declaration(param.name, out)
}

fn add_params(names: &Names, params: &[Member], out: &mut Items<Event>) -> Result<(), AllocError>
    ensures { OnOk result (out.new ≡ out.old ++ flat_map (param_events names.now) params.now) }
{
    for param in params {
        add_param(names, param, out)?;
    }
    Ok(())
}

fn add_result(
    names: &Names,
    given: &Option<FnResult>,
    out: &mut Items<Event>,
) -> Result<(), AllocError>
    ensures { OnOk result (out.new ≡ out.old ++ maybe (result_events names.now) given.now) }
{
    let Some(given) = given else {
        return Ok(());
    };
    add_attrs(names, given.attrs.as_slice(), out)?;
    add_uses(&given.ty, Role::Used, out)
}

fn add_alias(name: Named, ty: &Expr, out: &mut Items<Event>) -> Result<(), AllocError>
    ensures { OnOk result (out.new ≡ out.old ++ (node_of name ++ used ty.now)) }
{
    add_node(name, out)?;
    add_uses(ty, Role::Used, out)
}

fn add_struct(
    names: &Names,
    name: Named,
    members: &[Member],
    out: &mut Items<Event>,
) -> Result<(), AllocError>
    ensures { OnOk result (out.new ≡ out.old ++ (node_of name ++ flat_map (member_uses names.now) members.now ++ scope (flat_map member_declares members.now))) }
{
    add_node(name, out)?;
    add_members(names, members, out)?;
    add_member_scope(members, out)
}

/// Adds what happens in the attributes of a `var`, and what it uses.
fn add_module_var(
    names: &Names,
    attrs: &[Attr],
    var: &Var,
    out: &mut Items<Event>,
) -> Result<(), AllocError>
    ensures { OnOk result (out.new ≡ out.old ++ (attrs_events names.now attrs.now ++ var_uses var.now)) }
{
    add_attrs(names, attrs, out)?;
    add_var_uses(var, out)
}

/// Adds what happens in attributes, and the node of the name behind them.
fn add_attrs_and_name(
    names: &Names,
    attrs: &[Attr],
    name: Named,
    out: &mut Items<Event>,
) -> Result<(), AllocError>
    ensures { OnOk result (out.new ≡ out.old ++ (attrs_events names.now attrs.now ++ node_of name)) }
{
    add_attrs(names, attrs, out)?;
    add_node(name, out)
}

/// Adds that the range of a function begins, the node of its name, and that its scope begins.
fn begin_function(
    names: &Names,
    attrs: &[Attr],
    name: Named,
    out: &mut Items<Event>,
) -> Result<(), AllocError>
    ensures { OnOk result (out.new ≡ out.old ++ (range names.now attrs.now ++ node_of name ++ Event.Opens ∷ [])) }
{
    add_range(names, attrs, out)?;
    add_node(name, out)?;
    out.push(Event::Opens)
}

/// Adds that the scope and the range of a function end.
fn end_function(node: u32, out: &mut Items<Event>) -> Result<(), AllocError>
    ensures { OnOk result (out.new ≡ out.old ++ (Event.Closes ∷ [] ++ range_end node)) }
{
    out.push(Event::Closes)?;
    end_range(node, out)
}

fn add_decl_kind(
    names: &Names,
    kind: &DeclKind,
    node: u32,
    out: &mut Items<Event>,
) -> Result<(), AllocError>
    ensures { OnOk result (out.new ≡ out.old ++ decl_kind_events names.now kind.now node) }
{
    match kind {
        DeclKind::Empty => (),
        DeclKind::Alias { name, ty } => add_alias(*name, ty, out)?,
        DeclKind::Const(binding) => add_binding_uses(binding, out)?,
        DeclKind::ConstAssert(condition) => add_uses(condition, Role::Used, out)?,
        DeclKind::Struct { name, members, .. } => {
            add_struct(names, *name, members.as_slice(), out)?;
        }
        DeclKind::Var { attrs, var } => add_module_var(names, attrs.as_slice(), var, out)?,
        DeclKind::Override {
            attrs,
            name,
            ty,
            value,
            ..
        } => {
            add_attrs_and_name(names, attrs.as_slice(), *name, out)?;
            add_maybe(ty, out)?;
            add_maybe(value, out)?;
        }
        DeclKind::Fn {
            attrs,
            name,
            params,
            result: given,
            body,
            ..
        } => {
            begin_function(names, attrs.as_slice(), *name, out)?;
            add_params(names, params.as_slice(), out)?;
            add_result(names, given, out)?;
            add_body(names, body, out)?;
            return end_function(node, out);
        }
    }
    out.push(Event::Node(node))
}

/// The name that a declaration declares.
pub fn declared_name(kind: &DeclKind) -> Option<Named>
    ensures { result ≡ declared_name kind.now }
{
    match kind {
        DeclKind::Empty => None,
        DeclKind::Alias { name, .. } => Some(*name),
        DeclKind::Const(binding) => Some(binding.name),
        DeclKind::ConstAssert(_) => None,
        DeclKind::Struct { name, .. } => Some(*name),
        DeclKind::Var { var, .. } => Some(var.name),
        DeclKind::Override { name, .. } => Some(*name),
        DeclKind::Fn { name, .. } => Some(*name),
    }
}

fn is_entry_name(names: &Names, name: AttrName) -> bool
    ensures { result ≡ is_entry_name names.now name }
{
    match name {
        AttrName::Name(name) => makes_entry(names, name.name),
        AttrName::Diagnostic(_) => false,
        AttrName::Const(_) => false,
    }
}

fn has_entry_name(names: &Names, attrs: &[Attr]) -> bool
    ensures { result ≡ list_any (λ a. is_entry_name names.now a.name) attrs.now }
{
    attrs.iter().any(|a| is_entry_name(names, a.name))
}

fn is_entry(names: &Names, kind: &DeclKind) -> bool
    ensures { result ≡ is_entry names.now kind.now }
{
    match kind {
        DeclKind::Fn { attrs, .. } => has_entry_name(names, attrs.as_slice()),
        _ => false,
    }
}

/// The node by which a declaration is known.
pub fn declared_node(decl: &Decl) -> u32
    ensures { result ≡ declared_node decl.now }
{
    match declared_name(&decl.kind) {
        Some(name) => name.node,
        None => decl.node,
    }
}

fn add_heading(entry: bool, name: Option<Named>, out: &mut Items<Event>) -> Result<(), AllocError>
    ensures { OnOk result (out.new ≡ out.old ++ heading entry name) }
{
    match name {
        Some(name) => out.push(Event::Declares { name, entry }),
        None => Ok(()),
    }
}

fn add_heads(names: &Names, decls: &[Decl], out: &mut Items<Event>) -> Result<(), AllocError>
    ensures { OnOk result (out.new ≡ out.old ++ flat_map (head_events names.now) decls.now) }
{
    for decl in decls {
        add_heading(is_entry(names, &decl.kind), declared_name(&decl.kind), out)?;
    }
    Ok(())
}

fn add_decl(names: &Names, decl: &Decl, out: &mut Items<Event>) -> Result<(), AllocError>
    ensures { OnOk result (out.new ≡ out.old ++ decl_events names.now decl.now) }
{
    out.push(Event::Enters(declared_node(decl)))?;
    add_decl_kind(names, &decl.kind, decl.node, out)
}

fn add_decls(names: &Names, decls: &[Decl], out: &mut Items<Event>) -> Result<(), AllocError>
    ensures { OnOk result (out.new ≡ out.old ++ flat_map (decl_events names.now) decls.now) }
{
    for decl in decls {
        add_decl(names, decl, out)?;
    }
    Ok(())
}

fn add_rule(rule: Rule, out: &mut Items<Event>) -> Result<(), AllocError>
    ensures { OnOk result (out.new ≡ out.old ++ rule_events rule) }
{
    match rule {
        Rule::Plain(name) => add_node(name, out),
        Rule::Scoped { scope, name, .. } => {
            add_node(scope, out)?;
            add_node(name, out)
        }
    }
}

fn add_nodes(listed: &[Named], out: &mut Items<Event>) -> Result<(), AllocError>
    ensures { OnOk result (out.new ≡ out.old ++ flat_map node_of listed.now) }
{
    for name in listed {
        add_node(*name, out)?;
    }
    Ok(())
}

fn add_directive_kind(kind: &DirectiveKind, out: &mut Items<Event>) -> Result<(), AllocError>
    ensures { OnOk result (out.new ≡ out.old ++ directive_kind_events kind.now) }
{
    match kind {
        DirectiveKind::Diagnostic { severity, rule, .. } => {
            add_node(*severity, out)?;
            add_rule(*rule, out)
        }
        DirectiveKind::Requires { names: listed, .. } => add_nodes(listed.as_slice(), out),
        DirectiveKind::Enable { names: listed, .. } => add_nodes(listed.as_slice(), out),
    }
}

fn add_directive(
    names: &Names,
    directive: &Directive,
    out: &mut Items<Event>,
) -> Result<(), AllocError>
    ensures { OnOk result (out.new ≡ out.old ++ directive_events names.now directive.now) }
{
    add_lacking(bad_directive(names, &directive.kind), out)?;
    add_directive_kind(&directive.kind, out)?;
    out.push(Event::Node(directive.node))
}

fn add_each_directive(
    names: &Names,
    directives: &[Directive],
    out: &mut Items<Event>,
) -> Result<(), AllocError>
    ensures { OnOk result (out.new ≡ out.old ++ flat_map (directive_events names.now) directives.now) }
{
    for directive in directives {
        add_directive(names, directive, out)?;
    }
    Ok(())
}

fn add_directive_filters(
    names: &Names,
    directives: &[Directive],
    out: &mut Items<Event>,
) -> Result<(), AllocError>
    ensures { OnOk result (out.new ≡ out.old ++ flat_map (λ d. filter_events (directive_filter names.now d)) directives.now) }
{
    for directive in directives {
        add_filter(directive_filter(names, directive), out)?;
    }
    Ok(())
}

fn add_directives(
    names: &Names,
    directives: &[Directive],
    out: &mut Items<Event>,
) -> Result<(), AllocError>
    ensures { OnOk result (out.new ≡ out.old ++ directives_events names.now directives.now) }
{
    add_each_directive(names, directives, out)?;
    out.push(Event::Covers)?;
    add_directive_filters(names, directives, out)
}

/// Gives what happens to names and filters in a text, in its order. Takes time in the order of the tree and memory for each event, which is
/// all that can be wanting.
pub fn events(alloc: Global, tree: &Tree) -> Result<Items<Event>, AllocError>
    ensures { IfOk result (λ events. events ≡ tree_events tree.now) }
{
    let mut out = Items::new(alloc);
    add_directives(&tree.names, tree.directives.as_slice(), &mut out)?;
    add_heads(&tree.names, tree.decls.as_slice(), &mut out)?;
    add_decls(&tree.names, tree.decls.as_slice(), &mut out)?;
    Ok(out)
}
