//! Attributes, and what entries must have: which texts are accepted, and where the others break a rule. What literals and types are comes
//! from the rules of types; each other name, as `i`, is nothing.

ghost use Rattle.std.specs.Prelude.{IfSome};
ghost use Rattle.shade_values.specs.Sound.{IsOf};
ghost use Rattle.shade_values.specs.Table.{Table};

use crate::reading::tree_of;
use shade_ast::{Decl, Names, Tree};
use shade_attributes::{attribute_found, entry_found};
use shade_base::Place;
use shade_evaluate::ConstFault;
use shade_events::text_of;
use shade_known::{Found, Known, TypeRule, TypingFault, What, id_of, keep, nothing_known};
use shade_steps::{Step, Task, add_decl};
use shade_typing::{number, prefix, truth};
use shade_values::{Name, Scalar, ShadeType, TypeId};
use sqlite_items::Items;
use std::alloc::{AllocError, Global};
use std::test::Fail;

/// What comes of a text, with the offset of a fault.
#[derive(Clone, Copy, Debug, PartialEq, Eq, Drop)]
enum Want {
    Accepted,
    Attribute(u32),
    Entry(u32),
    NotConstant(u32),
    OutOfProfile(u32),
    /// None of these.
    Other,
}

fn seen_rule(rule: TypeRule, offset: u32) -> Want {
    match rule {
        TypeRule::Attribute => Want::Attribute(offset),
        TypeRule::Entry => Want::Entry(offset),
        _ => Want::Other,
    }
}

fn seen_fault(fault: &TypingFault) -> Want {
    match fault {
        TypingFault::Rule { place, rule } => seen_rule(*rule, place.offset),
        TypingFault::OutOfProfile { place, .. } => Want::OutOfProfile(place.offset),
        TypingFault::Constant(ConstFault::NotConstant(at)) => Want::NotConstant(at.offset),
        _ => Want::Other,
    }
}

fn type_word(text: &str) -> Option<ShadeType>
    ensures { (t : Table) → IfSome result (IsOf t) }
{
    match text {
        "u32" => Some(ShadeType::Plain(Scalar::U32)),
        "vec2u" => Some(ShadeType::Vector(2, Scalar::U32)),
        "vec3u" => Some(ShadeType::Vector(3, Scalar::U32)),
        "vec3i" => Some(ShadeType::Vector(3, Scalar::I32)),
        _ => None,
    }
}

/// The struct `S` of a text is its second type, behind that of its member.
fn name_taken(known: &mut Known, names: &Names, step: &Step, name: u32) -> Result<(), TypingFault> {
    let Some(text) = text_of(names, name) else {
        return Ok(());
    };
    let bad_access = false;
    if let Some(ty) = type_word(text) {
        return keep(known, step.node, step.place, Found::Type { ty, bad_access });
    }
    match text {
        "S" => {
            let ty = TypeId(1);
            keep(
                known,
                step.node,
                step.place,
                Found::Known(What::Type { ty, bad_access }),
            )
        }
        _ => Ok(()),
    }
}

fn decl_steps(alloc: Global, names: &Names, decl: &Decl) -> Result<Items<Step>, AllocError> {
    let mut steps = Items::new(alloc);
    add_decl(alloc, names, decl, &mut steps)?;
    Ok(steps)
}

/// Makes a struct with one member of type `u32` known.
fn declare_struct(
    alloc: Global,
    known: &mut Known,
    node: u32,
    place: Place,
) -> Result<(), TypingFault> {
    let member = id_of(&mut known.types, place, ShadeType::Plain(Scalar::U32))?;
    if known.types.count() == u32::MAX {
        return Err(TypingFault::NoMemory);
    }
    let name = Name::from_text(alloc, "n")?;
    let Ok(ty) = known.types.add_struct("S", &[(name, member)]) else {
        return Err(TypingFault::NoMemory);
    };
    let bad_access = false;
    keep(
        known,
        node,
        place,
        Found::Known(What::Type { ty, bad_access }),
    )
}

/// Takes a step of a declaration.
fn step_taken(
    alloc: Global,
    tree: &Tree,
    known: &mut Known,
    decl: &Decl,
    step: &Step,
) -> Result<(), TypingFault> {
    let names = &tree.names;
    match &step.task {
        Task::Attribute(parts) => {
            let found = attribute_found(alloc, names, known, parts, step.place)?;
            keep(known, parts.first, step.place, found)
        }
        Task::Finished { .. } => {
            let found = entry_found(names, known, tree.decls.as_slice(), decl)?;
            keep(known, step.node, step.place, found)
        }
        Task::Number { value, suffix } => {
            keep(known, step.node, step.place, number(*value, *suffix))
        }
        Task::Truth(flag) => keep(known, step.node, step.place, truth(*flag)),
        Task::Prefix { operator, operand } => {
            let found = prefix(alloc, known, *operator, step.place, false, *operand)?;
            keep(known, step.node, step.place, found)
        }
        Task::Name(name) => name_taken(known, names, step, *name),
        Task::Struct { .. } => declare_struct(alloc, known, step.node, step.place),
        _ => Ok(()),
    }
}

fn all_taken(alloc: Global, tree: &Tree) -> Result<(), TypingFault> {
    let mut known = nothing_known(alloc, 100)?;
    for decl in tree.decls.as_slice() {
        let steps = decl_steps(alloc, &tree.names, decl)?;
        for step in steps.as_slice() {
            step_taken(alloc, tree, &mut known, decl, step)?;
        }
    }
    Ok(())
}

fn accepted(alloc: Global, text: &str) -> Want {
    let Some(tree) = tree_of(alloc, text) else {
        return Want::Other;
    };
    match all_taken(alloc, &tree) {
        Ok(()) => Want::Accepted,
        Err(fault) => seen_fault(&fault),
    }
}

/// Attributes of functions and in them.
const FUNCTIONS: &[(&str, Want)] = &[
    ("@must_use fn f() -> u32 {}", Want::Accepted),
    ("@must_use fn f() {}", Want::Accepted),
    ("@must_use(1) fn f() {}", Want::Attribute(0)),
    ("@group(0) fn f() {}", Want::Attribute(0)),
    ("@group(i) fn f() {}", Want::NotConstant(7)),
    ("@vertex fn f() {}", Want::OutOfProfile(0)),
    ("@const fn f() {}", Want::OutOfProfile(0)),
    (
        "@diagnostic(off, a.b) @diagnostic(off, a.b) fn f() {}",
        Want::Accepted,
    ),
    ("@diagnostic(off) fn f() {}", Want::Attribute(0)),
    (
        "fn f() { @diagnostic(off, a.b) if true {} }",
        Want::Accepted,
    ),
    ("fn f() { @compute {} }", Want::Attribute(9)),
    (
        "fn f(@builtin(workgroup_id) g: vec3u) {}",
        Want::Attribute(5),
    ),
    (
        "fn f(@builtin(position) g: vec3u) {}",
        Want::OutOfProfile(14),
    ),
];

/// Attributes of variables of the module.
const VARIABLES: &[(&str, Want)] = &[
    (
        "@group(0) @binding(1u) var<storage> s: u32;",
        Want::Accepted,
    ),
    ("@group(5000000000) var<storage> s: u32;", Want::Accepted),
    (
        "@group(0) @group(0) var<storage> s: u32;",
        Want::Attribute(10),
    ),
    (
        "@group(0) @binding(-1) var<storage> s: u32;",
        Want::Attribute(10),
    ),
    ("@group(true) var<storage> s: u32;", Want::Attribute(0)),
    ("@group var<storage> s: u32;", Want::Attribute(0)),
    ("@group(0, 0) var<storage> s: u32;", Want::Attribute(0)),
    ("@group(0, i) var<storage> s: u32;", Want::NotConstant(10)),
    ("@builtin(x) var<storage> s: u32;", Want::OutOfProfile(9)),
    ("@builtin(0) var<storage> s: u32;", Want::Attribute(0)),
    (
        "@diagnostic(off, a.b) var<private> s: u32;",
        Want::Attribute(0),
    ),
];

/// Entries by their attributes.
const STAGES: &[(&str, Want)] = &[
    ("@compute @workgroup_size(1) fn f() {}", Want::Accepted),
    (
        "@workgroup_size(1, 2u, 3i) @compute() fn f() {}",
        Want::Accepted,
    ),
    (
        "@compute @workgroup_size(4294967295) fn f() {}",
        Want::Accepted,
    ),
    ("@compute fn f() {}", Want::Entry(0)),
    ("@workgroup_size(1) fn f() {}", Want::Entry(0)),
    ("@compute @workgroup_size(1, 0) fn f() {}", Want::Entry(0)),
    ("@compute @workgroup_size(-1) fn f() {}", Want::Entry(0)),
    ("@compute @workgroup_size(true) fn f() {}", Want::Entry(0)),
    (
        "@compute @workgroup_size(4294967296) fn f() {}",
        Want::Entry(0),
    ),
    (
        "@compute @workgroup_size(1) fn f() -> u32 {}",
        Want::Entry(0),
    ),
    ("@compute @workgroup_size() fn f() {}", Want::Attribute(9)),
    (
        "@compute @workgroup_size(1, 1, 1, 1) fn f() {}",
        Want::Attribute(9),
    ),
    (
        "@compute @workgroup_size(i) fn f() {}",
        Want::NotConstant(25),
    ),
];

/// What stands behind `@compute @workgroup_size(1) fn f(`.
const INPUTS: &[(&str, Want)] = &[
    ("@builtin(local_invocation_index) n: u32", Want::Accepted),
    ("@builtin(local_invocation_id) n: vec3u", Want::Accepted),
    (
        "@builtin(num_workgroups) n: vec3u, @builtin(num_workgroups) m: vec3u",
        Want::Accepted,
    ),
    ("@builtin(local_invocation_index) n: vec3u", Want::Entry(0)),
    ("@builtin(workgroup_id) n: u32", Want::Entry(0)),
    ("@builtin(workgroup_id) n: vec3i", Want::Entry(0)),
    ("@builtin(workgroup_id) n: vec2u", Want::Entry(0)),
    ("n: u32", Want::Entry(0)),
    (
        "@builtin(workgroup_id) @builtin(workgroup_id) n: vec3u",
        Want::Attribute(56),
    ),
];

/// Structs as what entries are handed.
const STRUCTS: &[(&str, Want)] = &[
    (
        "struct S { @builtin(local_invocation_index) n: u32 } @compute @workgroup_size(1) fn f(s: S) {}",
        Want::Accepted,
    ),
    (
        "struct S { n: u32 } @compute @workgroup_size(1) fn f(s: S) {}",
        Want::Entry(20),
    ),
    (
        "struct S { @builtin(workgroup_id) n: u32 } @compute @workgroup_size(1) fn f(s: S) {}",
        Want::Entry(43),
    ),
    ("struct S { @group(0) n: u32 }", Want::Attribute(11)),
];

/// The number of the first row of which something else comes than is wanted.
fn first_wrong(alloc: Global, rows: &[(&str, Want)]) -> Option<usize> {
    for (i, (text, want)) in rows.iter().enumerate() {
        if accepted(alloc, text) != *want {
            return Some(i);
        }
    }
    None
}

#[test]
fn functions(rt: HostRuntime) -> Result<(), Fail> {
    assert_eq!(rt; first_wrong(rt.alloc(), FUNCTIONS), None);
    Ok(())
}

#[test]
fn variables(rt: HostRuntime) -> Result<(), Fail> {
    assert_eq!(rt; first_wrong(rt.alloc(), VARIABLES), None);
    Ok(())
}

#[test]
fn stages(rt: HostRuntime) -> Result<(), Fail> {
    assert_eq!(rt; first_wrong(rt.alloc(), STAGES), None);
    Ok(())
}

#[test]
fn structs(rt: HostRuntime) -> Result<(), Fail> {
    assert_eq!(rt; first_wrong(rt.alloc(), STRUCTS), None);
    Ok(())
}

#[test]
fn inputs(rt: HostRuntime) -> Result<(), Fail> {
    let alloc = rt.alloc();
    for (text, want) in INPUTS {
        let whole = format!(in alloc; "@compute @workgroup_size(1) fn f({text}) {{}}")?;
        assert_eq!(rt; accepted(alloc, whole.as_str()), *want, "{text}");
    }
    Ok(())
}
