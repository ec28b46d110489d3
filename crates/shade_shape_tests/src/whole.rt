//! The shape of whole modules by hand: one demand broken in each row.

use crate::modules::{
    ABSTRACT, B, C, COUNTER, FOUR, Given, I, LIST, MISSING, Memory, POINTER, R, S, SIGNED, TRUTH,
    U, W, WORD, X, add_if, add_load, add_loop, add_return, add_skip, add_store, is_shaped, leaf,
    memory_module, module_of, more_function, operand, root,
};
use shade_base::Severity;
use shade_core::{Act, Base, BuiltinInput, CoreModule, CoreParam, CoreStatement, SwitchPart};
use shade_samples::{barrier, compare, only, statement};
use shade_values::{Access, Op, Scalar, Space, TypeId};
use sqlite_items::Items;
use std::alloc::{AllocError, Global};
use std::test::Fail;

/// The one operation of an entry, its operands, and whether they fit.
const OPERATIONS: &[(Op, &[Given], bool)] = &[
    (Op::Add, &[WORD, WORD], true),
    (Op::Add, &[Given::Param(0), WORD], true),
    (Op::Add, &[WORD, SIGNED], false),
    (Op::Add, &[WORD], false),
    (Op::Less, &[WORD, WORD], true),
    (Op::Less, &[Given::Value(U, Scalar::I32, 1), WORD], false),
    (Op::Less, &[Given::Value(U, Scalar::U32, -1), WORD], false),
    (
        Op::Less,
        &[Given::Value(MISSING, Scalar::U32, 1), WORD],
        false,
    ),
    (Op::Less, &[Given::Param(1), WORD], false),
    (Op::Less, &[Given::Temp(0), WORD], false),
    (Op::Less, &[Given::Temp(7), WORD], false),
    (Op::Convert(Scalar::I32), &[WORD], true),
    (Op::Convert(Scalar::Abstract), &[WORD], false),
    (
        Op::Negate,
        &[Given::Value(ABSTRACT, Scalar::Abstract, 1)],
        false,
    ),
    (Op::Vector(3, Scalar::U32), &[WORD, WORD, WORD], false),
    (Op::Make(FOUR), &[WORD, WORD, WORD, WORD], true),
    (Op::Make(FOUR), &[WORD, WORD, WORD], false),
    (Op::Make(MISSING), &[WORD], false),
    (Op::Member(0), &[WORD], false),
    (Op::AtomicLoad, &[WORD], false),
];

#[test]
fn operations_take_their_types(rt: HostRuntime) -> Result<(), Fail> {
    let alloc = rt.alloc();
    for (op, given, expected) in OPERATIONS {
        let found = is_shaped(alloc, memory_module(alloc, Memory::Set(*op, given))?)?;
        assert_eq!(rt; found, *expected, "{op:?} {given:?}");
    }
    Ok(())
}

const MEMORY: &[(Memory, bool)] = &[
    (Memory::Load(W, None), true),
    (Memory::Load(R, Some(WORD)), true),
    (Memory::Load(C, None), false),
    (Memory::Load(R, None), false),
    (Memory::Load(W, Some(WORD)), false),
    (
        Memory::Load(R, Some(Given::Value(B, Scalar::Bool, 1))),
        false,
    ),
    (Memory::Load(Base::Module(4), None), false),
    (Memory::Load(Base::Local(2), None), false),
    (Memory::Load(Base::Pointee(0), None), false),
    (Memory::Store(S, Some(WORD), WORD), true),
    (Memory::Store(R, Some(WORD), WORD), false),
    (Memory::Store(W, None, SIGNED), false),
    (Memory::Store(C, None, WORD), false),
    (Memory::Declare(0, None), true),
    (Memory::Declare(0, Some(WORD)), true),
    (Memory::Declare(1, Some(WORD)), false),
    (Memory::Declare(2, None), false),
    (Memory::Atomic(Op::AtomicAdd, C, &[WORD]), true),
    (Memory::Atomic(Op::AtomicStore, C, &[WORD]), true),
    (Memory::Atomic(Op::AtomicAdd, C, &[]), false),
    (Memory::Atomic(Op::AtomicAdd, W, &[WORD]), false),
    (Memory::Atomic(Op::Add, C, &[WORD]), false),
    (
        Memory::Atomic(Op::AtomicCompareExchangeWeak, C, &[WORD, WORD]),
        false,
    ),
    (Memory::UniformLoad(W, None), true),
    (Memory::UniformLoad(X, None), false),
    (Memory::Length(S), true),
    (Memory::Length(W), false),
    (Memory::Barrier(Space::Storage), true),
    (Memory::Barrier(Space::Private), false),
    (Memory::Call(1, &[WORD], Some((X, None))), true),
    (Memory::Call(1, &[WORD], Some((W, None))), false),
    (Memory::Call(1, &[WORD], None), false),
    (Memory::Call(1, &[SIGNED], Some((X, None))), false),
    (Memory::Call(0, &[], None), false),
    (Memory::Call(2, &[], None), false),
    (Memory::Return(None), true),
    (Memory::Return(Some(WORD)), false),
];

#[test]
fn statements_on_memory(rt: HostRuntime) -> Result<(), Fail> {
    let alloc = rt.alloc();
    for (memory, expected) in MEMORY {
        let found = is_shaped(alloc, memory_module(alloc, *memory)?)?;
        assert_eq!(rt; found, *expected, "{memory:?}");
    }
    Ok(())
}

/// How control goes in an entry.
#[derive(Clone, Copy, Debug)]
enum Control {
    /// `if (true) { workgroupBarrier(); }`, with the number of the If.
    If(u32, Given),
    /// `if (local_index < 1) { workgroupBarrier(); }`, which the first lane alone comes to.
    Divergent,
    /// The second part of an If names this value: that of its first part is numbered 2.
    Sibling(u32),
    /// Whether each part is the fallback, and its key.
    Switch(Given, &'static [(bool, i64)]),
    /// The operand with which a loop is left.
    Leave(Given),
    /// The continuing part names a value of the body behind a Continue.
    Skipped,
    /// The continuing part names a value of the body before a Continue.
    Kept,
    /// No Return at the end.
    Open,
}

/// `if (cond) { workgroupBarrier(); }`, with the number of the If.
fn if_body(alloc: Global, number: u32, cond: Given) -> Result<Items<CoreStatement>, AllocError> {
    let mut body = Items::new(alloc);
    let yes = only(alloc, barrier(1, Severity::Warning))?;
    add_if(&mut body, number, cond, yes, Items::new(alloc))?;
    add_return(&mut body, 2)?;
    Ok(body)
}

/// `if (local_index < 1) { workgroupBarrier(); }`
fn divergent_body(alloc: Global) -> Result<Items<CoreStatement>, AllocError> {
    let mut body = Items::new(alloc);
    compare(alloc, &mut body, 0, Op::Less, 1)?;
    let yes = only(alloc, barrier(2, Severity::Warning))?;
    add_if(&mut body, 1, Given::Temp(0), yes, Items::new(alloc))?;
    add_return(&mut body, 3)?;
    Ok(body)
}

/// `if (true) { x; } else { x = t; }`, where the value is one of the first part, or of the statement before.
fn sibling_body(alloc: Global, value: u32) -> Result<Items<CoreStatement>, AllocError> {
    let mut body = Items::new(alloc);
    add_load(alloc, &mut body, 0)?;
    let mut yes = Items::new(alloc);
    add_load(alloc, &mut yes, 2)?;
    let mut no = Items::new(alloc);
    add_store(alloc, &mut no, 3, value)?;
    add_if(&mut body, 1, TRUTH, yes, no)?;
    add_return(&mut body, 4)?;
    Ok(body)
}

fn add_part(
    alloc: Global,
    parts: &mut Items<SwitchPart>,
    fallback: bool,
    key: i64,
) -> Result<(), AllocError> {
    let mut keys = Items::new(alloc);
    keys.push(key)?;
    let body = Items::new(alloc);
    parts.push(SwitchPart {
        keys,
        fallback,
        body,
    })
}

fn add_switch(
    list: &mut Items<CoreStatement>,
    selector: Given,
    parts: Items<SwitchPart>,
) -> Result<(), AllocError> {
    let selector = operand(selector);
    list.push(statement(0, Act::Switch { selector, parts }))
}

fn switch_body(
    alloc: Global,
    selector: Given,
    rows: &[(bool, i64)],
) -> Result<Items<CoreStatement>, AllocError> {
    let mut parts = Items::new(alloc);
    for (fallback, key) in rows {
        add_part(alloc, &mut parts, *fallback, *key)?;
    }
    let mut body = Items::new(alloc);
    add_switch(&mut body, selector, parts)?;
    add_return(&mut body, 1)?;
    Ok(body)
}

fn leave_body(alloc: Global, leave: Given) -> Result<Items<CoreStatement>, AllocError> {
    let mut continuing = Items::new(alloc);
    compare(alloc, &mut continuing, 1, Op::Less, 1)?;
    let mut body = Items::new(alloc);
    add_loop(&mut body, 0, Items::new(alloc), continuing, leave)?;
    add_return(&mut body, 2)?;
    Ok(body)
}

/// `loop { if (true) { continue; } x; continuing { x = t; break if true; } }`
fn skipped_body(alloc: Global) -> Result<Items<CoreStatement>, AllocError> {
    let mut inner = Items::new(alloc);
    add_skip(alloc, &mut inner, 1)?;
    add_load(alloc, &mut inner, 3)?;
    continued_body(alloc, inner, 3)
}

/// `loop { x; if (true) { continue; } continuing { x = t; break if true; } }`
fn kept_body(alloc: Global) -> Result<Items<CoreStatement>, AllocError> {
    let mut inner = Items::new(alloc);
    add_load(alloc, &mut inner, 1)?;
    add_skip(alloc, &mut inner, 2)?;
    continued_body(alloc, inner, 1)
}

/// The loop of this body, whose continuing part stores the value of a statement.
fn continued_body(
    alloc: Global,
    inner: Items<CoreStatement>,
    value: u32,
) -> Result<Items<CoreStatement>, AllocError> {
    let mut continuing = Items::new(alloc);
    add_store(alloc, &mut continuing, 4, value)?;
    let mut body = Items::new(alloc);
    add_loop(&mut body, 0, inner, continuing, TRUTH)?;
    add_return(&mut body, 5)?;
    Ok(body)
}

fn control_body(alloc: Global, control: Control) -> Result<Items<CoreStatement>, AllocError> {
    match control {
        Control::If(number, cond) => if_body(alloc, number, cond),
        Control::Divergent => divergent_body(alloc),
        Control::Sibling(value) => sibling_body(alloc, value),
        Control::Switch(selector, rows) => switch_body(alloc, selector, rows),
        Control::Leave(leave) => leave_body(alloc, leave),
        Control::Skipped => skipped_body(alloc),
        Control::Kept => kept_body(alloc),
        Control::Open => Ok(Items::new(alloc)),
    }
}

const CONTROL: &[(Control, bool)] = &[
    (Control::If(0, TRUTH), true),
    (Control::Divergent, true),
    (Control::If(1, TRUTH), false),
    (Control::If(0, WORD), false),
    (Control::Sibling(0), true),
    (Control::Sibling(2), false),
    (Control::Switch(WORD, &[(true, 1), (false, 2)]), true),
    (Control::Switch(WORD, &[(false, 1), (false, 2)]), false),
    (Control::Switch(WORD, &[(true, 1), (true, 2)]), false),
    (Control::Switch(WORD, &[(true, 1), (false, 1)]), false),
    (Control::Switch(WORD, &[(true, -1)]), false),
    (Control::Switch(SIGNED, &[(true, -1)]), true),
    (Control::Switch(TRUTH, &[(true, 1)]), false),
    (Control::Leave(Given::Temp(1)), true),
    (Control::Leave(Given::Temp(2)), false),
    (Control::Leave(WORD), false),
    (Control::Kept, true),
    (Control::Skipped, false),
    (Control::Open, false),
];

#[test]
fn control_and_names_of_values(rt: HostRuntime) -> Result<(), Fail> {
    let alloc = rt.alloc();
    for (control, expected) in CONTROL {
        let body = control_body(alloc, *control)?;
        let found = is_shaped(alloc, module_of(alloc, body)?)?;
        assert_eq!(rt; found, *expected, "{control:?}");
    }
    Ok(())
}

/// One thing more in a module.
#[derive(Clone, Copy, Debug)]
enum Declared {
    /// A root of this name, space, access and type, which begins with 1 or not.
    Root(&'static str, Space, Access, TypeId, bool),
    /// A function of this name, with this parameter and size, which has a result or not.
    Function(&'static str, CoreParam, Option<[u32; 3]>, bool),
}

fn declare(alloc: Global, module: &mut CoreModule, declared: Declared) -> Result<(), AllocError> {
    match declared {
        Declared::Root(name, space, access, ty, begins) => {
            let mut more = root(alloc, name, space, access, ty)?;
            if begins {
                more.initial = Some(leaf(Scalar::U32, 1));
            }
            module.roots.push(more)
        }
        Declared::Function(name, param, size, gives) => {
            let (ty, value) = if gives {
                (Some(U), Some(WORD))
            } else {
                (None, None)
            };
            let more = more_function(alloc, name, param, size, ty, value)?;
            module.functions.push(more)
        }
    }
}

const INDEX: CoreParam = CoreParam::Input(BuiltinInput::LocalIndex);

const DECLARED: &[(Declared, bool)] = &[
    (
        Declared::Root("p", Space::Private, Access::ReadWrite, U, true),
        true,
    ),
    (
        Declared::Root("p", Space::Private, Access::ReadWrite, I, true),
        false,
    ),
    (
        Declared::Root("p", Space::Workgroup, Access::ReadWrite, U, true),
        false,
    ),
    (
        Declared::Root("w", Space::Private, Access::ReadWrite, U, false),
        false,
    ),
    (
        Declared::Root("p", Space::Private, Access::Read, U, false),
        false,
    ),
    (
        Declared::Root("p", Space::Private, Access::ReadWrite, MISSING, false),
        false,
    ),
    (
        Declared::Root("p", Space::Private, Access::ReadWrite, COUNTER, false),
        false,
    ),
    (
        Declared::Root("p", Space::Uniform, Access::Read, U, false),
        true,
    ),
    (
        Declared::Root("p", Space::Uniform, Access::Read, B, false),
        false,
    ),
    (
        Declared::Root("p", Space::Storage, Access::Read, COUNTER, false),
        false,
    ),
    (
        Declared::Root("p", Space::Function, Access::ReadWrite, U, false),
        false,
    ),
    (
        Declared::Function("g", CoreParam::Plain(U), None, true),
        true,
    ),
    (
        Declared::Function("f", CoreParam::Plain(U), None, true),
        false,
    ),
    (
        Declared::Function("g", CoreParam::Plain(LIST), None, true),
        false,
    ),
    (
        Declared::Function("g", CoreParam::Plain(MISSING), None, true),
        false,
    ),
    (Declared::Function("g", INDEX, None, false), false),
    (Declared::Function("g", INDEX, Some([1, 1, 1]), false), true),
    (
        Declared::Function("g", INDEX, Some([1, 0, 1]), false),
        false,
    ),
    (Declared::Function("g", INDEX, Some([1, 1, 1]), true), false),
    (
        Declared::Function("g", CoreParam::Plain(U), Some([1, 1, 1]), false),
        false,
    ),
    (
        Declared::Function(
            "g",
            CoreParam::Pointer(Space::Function, POINTER),
            None,
            false,
        ),
        true,
    ),
    (
        Declared::Function(
            "g",
            CoreParam::Pointer(Space::Private, POINTER),
            None,
            false,
        ),
        false,
    ),
    (
        Declared::Function("g", CoreParam::Pointer(Space::Function, U), None, false),
        false,
    ),
    (
        Declared::Function("g", INDEX, Some([256, 1, 1]), false),
        true,
    ),
    (
        Declared::Function("g", INDEX, Some([257, 1, 1]), false),
        false,
    ),
];

fn declared_module(alloc: Global, declared: Declared) -> Result<CoreModule, Fail> {
    let mut module = module_of(alloc, if_body(alloc, 0, TRUTH)?)?;
    declare(alloc, &mut module, declared)?;
    Ok(module)
}

#[test]
fn roots_and_functions(rt: HostRuntime) -> Result<(), Fail> {
    let alloc = rt.alloc();
    for (declared, expected) in DECLARED {
        let found = is_shaped(alloc, declared_module(alloc, *declared)?)?;
        assert_eq!(rt; found, *expected, "{declared:?}");
    }
    Ok(())
}
