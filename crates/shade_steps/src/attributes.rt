//! The steps of attributes.

ghost use Rattle.std.specs.Prelude.{◌≡◌, ◌++◌, None, OnOk, IfOk, is_some, map, option_map};
ghost use Rattle.std.specs.List.{flat_map};
ghost use Rattle.shade_events.specs.Events.{is_entry_name};
ghost use Rattle.shade_events.specs.Words.{is_word, is_one_of, builtin_words, entry_words};
ghost use Rattle.shade_events.specs.Filters.{word_of, rule_of};
ghost use Rattle.shade_steps.specs.Steps.{steps_of_value};
ghost use Rattle.shade_steps.specs.Statements.{are_filter, argument_steps, asks, attr_steps, attrs_steps, first_node, has_words, maybe, node_of, nodes_of, only_word};
ghost use Rattle.shade_steps.specs.Declarations.{is_entry};

use crate::expressions::{add, add_value, own_of};
use crate::step::{AttrParts, Position, Step, Task};
use shade_ast::{Arguments, Attr, AttrName, Expr, ExprKind, Names};
use shade_events::text_of;
use shade_known::Operand;
use sqlite_items::Items;
use std::alloc::{AllocError, Global};

/// Adds a step that stands in no right side of a `&&` or `||`.
pub(crate) fn ask(own: Operand, task: Task, out: &mut Items<Step>) -> Result<(), AllocError>
    ensures { OnOk result (out.new ≡ out.old ++ asks own task) }
{
    add(own, None, task, out)
}

/// Adds the steps of some expressions, and that each is a value.
fn add_each(alloc: Global, exprs: &[Expr], out: &mut Items<Step>) -> Result<(), AllocError>
    ensures { OnOk result (out.new ≡ out.old ++ flat_map (steps_of_value None) exprs.now) }
{
    for e in exprs {
        add_value(alloc, e, None, out)?;
    }
    Ok(())
}

fn is_builtin_word(text: &str) -> bool
    ensures { result ≡ is_word builtin_words text.now }
{
    match text {
        "builtin" => true,
        _ => false,
    }
}

/// Whether a name is `builtin`.
fn is_builtin(names: &Names, name: u32) -> bool
    ensures { result ≡ is_one_of builtin_words names.now name }
{
    match text_of(names, name) {
        Some(text) => is_builtin_word(text),
        None => false,
    }
}

fn is_entry_word(text: &str) -> bool
    ensures { result ≡ is_word entry_words text.now }
{
    match text {
        "compute" | "workgroup_size" => true,
        _ => false,
    }
}

fn is_entry_name(names: &Names, name: AttrName) -> bool
    ensures { result ≡ is_entry_name names.now name }
{
    match name {
        AttrName::Name(name) => match text_of(names, name.name) {
            Some(text) => is_entry_word(text),
            None => false,
        },
        AttrName::Diagnostic(_) => false,
        AttrName::Const(_) => false,
    }
}

/// Whether a function with these attributes is an entry.
pub(crate) fn is_entry(names: &Names, attrs: &[Attr]) -> bool
    ensures { result ≡ is_entry names.now attrs.now }
{
    attrs.iter().any(|attr| is_entry_name(names, attr.name))
}

/// The name that an expression is.
fn word_of(e: &Expr) -> Option<u32>
    ensures { result ≡ word_of e.now }
{
    match &e.kind {
        ExprKind::Name(name) => Some(*name),
        _ => None,
    }
}

/// Whether an expression is a rule of diagnostics.
fn is_rule(e: &Expr) -> bool
    ensures { result ≡ is_some (rule_of e.now) }
{
    match &e.kind {
        ExprKind::Name(_) => true,
        ExprKind::Member { whole, .. } => word_of(whole.get()).is_some(),
        _ => false,
    }
}

/// Whether arguments are those of a diagnostic filter.
fn are_filter(arguments: &Option<Arguments>) -> bool
    ensures { result ≡ are_filter arguments.now }
{
    let Some(arguments) = arguments else {
        return false;
    };
    match arguments.items.as_slice() {
        [severity, rule] => word_of(severity).is_some() && is_rule(rule),
        _ => false,
    }
}

/// Whether the arguments of an attribute are words.
fn has_words(names: &Names, name: AttrName) -> bool
    ensures { result ≡ has_words names.now name }
{
    match name {
        AttrName::Name(name) => is_builtin(names, name.name),
        AttrName::Diagnostic(_) => true,
        AttrName::Const(_) => false,
    }
}

fn add_arguments(
    alloc: Global,
    words: bool,
    arguments: &Option<Arguments>,
    out: &mut Items<Step>,
) -> Result<(), AllocError>
    ensures { OnOk result (out.new ≡ out.old ++ maybe (argument_steps words) arguments.now) }
{
    let Some(arguments) = arguments else {
        return Ok(());
    };
    if words {
        return Ok(());
    }
    add_each(alloc, arguments.items.as_slice(), out)
}

fn nodes_of(alloc: Global, exprs: &[Expr]) -> Result<Items<Operand>, AllocError>
    ensures { IfOk result (λ l. l ≡ map node_of exprs.now) }
{
    let mut made = Items::new(alloc);
    for e in exprs {
        made.push(own_of(e))?;
    }
    Ok(made)
}

fn argument_nodes(
    alloc: Global,
    arguments: &Option<Arguments>,
) -> Result<Option<Items<Operand>>, AllocError>
    ensures { IfOk result (λ o. o ≡ option_map nodes_of arguments.now) }
{
    match arguments {
        Some(arguments) => Ok(Some(nodes_of(alloc, arguments.items.as_slice())?)),
        None => Ok(None),
    }
}

/// The name that is the only argument.
fn only_word(arguments: &Option<Arguments>) -> Option<u32>
    ensures { result ≡ only_word arguments.now }
{
    let Some(arguments) = arguments else {
        return None;
    };
    match arguments.items.as_slice() {
        [e] => word_of(e),
        _ => None,
    }
}

fn add_attr(
    alloc: Global,
    names: &Names,
    set: (Position, u32),
    attr: &Attr,
    out: &mut Items<Step>,
) -> Result<(), AllocError>
    ensures { OnOk result (out.new ≡ out.old ++ attr_steps names.now set.0 set.1 attr.now) }
{
    add_arguments(alloc, has_words(names, attr.name), &attr.arguments, out)?;
    let parts = AttrParts {
        position: set.0,
        first: set.1,
        name: attr.name,
        arguments: argument_nodes(alloc, &attr.arguments)?,
        word: only_word(&attr.arguments),
        filter: are_filter(&attr.arguments),
    };
    let own = Operand {
        node: attr.node,
        place: attr.place,
    };
    ask(own, Task::Attribute(parts), out)
}

fn first_node(attrs: &[Attr]) -> u32
    ensures { result ≡ first_node attrs.now }
{
    match attrs {
        [first, ..] => first.node,
        _ => 0,
    }
}

/// Adds the steps of some attributes that stand before one thing. Takes memory for the steps.
pub fn add_attrs(
    alloc: Global,
    names: &Names,
    position: Position,
    attrs: &[Attr],
    out: &mut Items<Step>,
) -> Result<(), AllocError>
    ensures { OnOk result (out.new ≡ out.old ++ attrs_steps names.now position attrs.now) }
{
    let first = first_node(attrs);
    for attr in attrs {
        add_attr(alloc, names, (position, first), attr, out)?;
    }
    Ok(())
}
