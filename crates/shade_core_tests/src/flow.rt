//! The definitions that reach a statement: of branches, loops, switches, parts, arguments, dead code, and of a large function.

use shade_core::{
    Act, Argument, Base, CoreFunction, CoreParam, CoreStatement, Operand, SwitchPart, View,
    ViewStep,
};
use shade_flow::{Definition, is_counted, reaching};
use shade_samples::{NOWHERE, branch, compare, statement};
use shade_values::{Name, Op, Space, TypeId};
use sqlite_items::Items;
use std::alloc::{AllocError, Global};
use std::process::Abort;
use std::test::Fail;

/// A statement, a variable, and the definitions of it that reach there.
type Row = (u32, Base, &'static [Definition]);

const X: Base = Base::Local(0);

const P: Base = Base::Pointee(0);

const BRANCHING: &[Row] = &[
    (0, X, &[]),
    (3, X, &[Definition::At(0)]),
    (4, X, &[Definition::At(0), Definition::At(3)]),
];

const LOOPING: &[Row] = &[
    (2, X, &[Definition::At(0), Definition::At(5)]),
    (
        5,
        X,
        &[Definition::At(0), Definition::At(4), Definition::At(5)],
    ),
    (6, X, &[Definition::At(5)]),
];

const SWITCHING: &[Row] = &[
    (3, X, &[Definition::At(2)]),
    (4, X, &[Definition::At(0)]),
    (
        7,
        X,
        &[Definition::At(0), Definition::At(2), Definition::At(5)],
    ),
];

const CALLING: &[Row] = &[
    (2, X, &[Definition::At(0), Definition::At(1)]),
    (2, P, &[Definition::Entry(0)]),
    (3, P, &[Definition::Argument(2, 0)]),
    (
        3,
        X,
        &[
            Definition::At(0),
            Definition::At(1),
            Definition::Argument(2, 1),
        ],
    ),
];

const DEAD: &[Row] = &[(3, X, &[]), (4, X, &[Definition::At(0), Definition::At(3)])];

const LARGE: &[Row] = &[
    (1, X, &[Definition::At(9900)]),
    (5000, Base::Local(9), &[Definition::At(4990)]),
];

/// A view of a variable or of a part of it.
fn view(alloc: Global, base: Base, whole: bool) -> Result<View, AllocError> {
    let mut steps = Items::new(alloc);
    if !whole {
        steps.push(ViewStep::Member(0))?;
    }
    Ok(View { base, steps })
}

fn add(body: &mut Items<CoreStatement>, number: u32, act: Act) -> Result<(), AllocError> {
    body.push(statement(number, act))
}

fn add_declare(body: &mut Items<CoreStatement>, number: u32) -> Result<(), AllocError> {
    let act = Act::Declare {
        local: 0,
        value: None,
    };
    add(body, number, act)
}

fn add_store(
    alloc: Global,
    body: &mut Items<CoreStatement>,
    number: u32,
    base: Base,
    whole: bool,
) -> Result<(), AllocError> {
    let view = view(alloc, base, whole)?;
    let value = Operand::Param(1);
    add(body, number, Act::Store { view, value })
}

fn add_load(alloc: Global, body: &mut Items<CoreStatement>, number: u32) -> Result<(), AllocError> {
    let view = view(alloc, X, true)?;
    add(body, number, Act::Load { view })
}

/// `var x; if (i < 1u) { x = v; } x;`
fn branching(alloc: Global) -> Result<Items<CoreStatement>, AllocError> {
    let mut yes = Items::new(alloc);
    add_store(alloc, &mut yes, 3, X, true)?;
    let mut body = Items::new(alloc);
    add_declare(&mut body, 0)?;
    compare(alloc, &mut body, 1, Op::Less, 1)?;
    branch(alloc, &mut body, 2, yes)?;
    add_load(alloc, &mut body, 4)?;
    Ok(body)
}

/// `var x; loop { if (i) { continue; } x = v; continuing { x = v; break if i; } } x;`
fn looping(alloc: Global) -> Result<Items<CoreStatement>, AllocError> {
    let mut yes = Items::new(alloc);
    add(&mut yes, 3, Act::Continue)?;
    let mut inside = Items::new(alloc);
    branch(alloc, &mut inside, 2, yes)?;
    add_store(alloc, &mut inside, 4, X, true)?;
    let mut continuing = Items::new(alloc);
    add_store(alloc, &mut continuing, 5, X, true)?;
    let mut body = Items::new(alloc);
    add_declare(&mut body, 0)?;
    add_loop(&mut body, 1, inside, continuing)?;
    add_load(alloc, &mut body, 6)?;
    Ok(body)
}

fn add_loop(
    out: &mut Items<CoreStatement>,
    number: u32,
    body: Items<CoreStatement>,
    continuing: Items<CoreStatement>,
) -> Result<(), AllocError> {
    let leave = Some(Operand::Param(1));
    add(
        out,
        number,
        Act::Loop {
            body,
            continuing,
            leave,
        },
    )
}

/// Adds a switch of two parts, the second of them its fallback.
fn add_switch(
    alloc: Global,
    out: &mut Items<CoreStatement>,
    number: u32,
    first: Items<CoreStatement>,
    second: Items<CoreStatement>,
) -> Result<(), AllocError> {
    let mut parts = Items::new(alloc);
    parts.push(part(alloc, first, false))?;
    parts.push(part(alloc, second, true))?;
    let selector = Operand::Param(1);
    add(out, number, Act::Switch { selector, parts })
}

fn part(alloc: Global, body: Items<CoreStatement>, fallback: bool) -> SwitchPart {
    SwitchPart {
        keys: Items::new(alloc),
        fallback,
        body,
    }
}

/// `var x; switch (i) { case: x = v; break; default: switch (i) { case: x = v; default: break; } } x;`
fn switching(alloc: Global) -> Result<Items<CoreStatement>, AllocError> {
    let mut stored = Items::new(alloc);
    add_store(alloc, &mut stored, 5, X, true)?;
    let mut broken = Items::new(alloc);
    add(&mut broken, 6, Act::Break)?;
    let mut second = Items::new(alloc);
    add_switch(alloc, &mut second, 4, stored, broken)?;
    let mut first = Items::new(alloc);
    add_store(alloc, &mut first, 2, X, true)?;
    add(&mut first, 3, Act::Break)?;
    let mut body = Items::new(alloc);
    add_declare(&mut body, 0)?;
    add_switch(alloc, &mut body, 1, first, second)?;
    add_load(alloc, &mut body, 7)?;
    Ok(body)
}

/// `var x; x.a = v; f(p, &x.a); x;`
fn calling(alloc: Global) -> Result<Items<CoreStatement>, AllocError> {
    let mut body = Items::new(alloc);
    add_declare(&mut body, 0)?;
    add_store(alloc, &mut body, 1, X, false)?;
    let mut args = Items::new(alloc);
    args.push(Argument::Pointer(view(alloc, P, true)?))?;
    args.push(Argument::Pointer(view(alloc, X, false)?))?;
    add(&mut body, 2, Act::Call { function: 0, args })?;
    add_load(alloc, &mut body, 3)?;
    Ok(body)
}

/// `var x; loop { continue; x = v; continuing { x; break if i; } }`
fn dead(alloc: Global) -> Result<Items<CoreStatement>, AllocError> {
    let mut inside = Items::new(alloc);
    add(&mut inside, 2, Act::Continue)?;
    add_store(alloc, &mut inside, 3, X, true)?;
    let mut continuing = Items::new(alloc);
    add_load(alloc, &mut continuing, 4)?;
    let mut body = Items::new(alloc);
    add_declare(&mut body, 0)?;
    add_loop(&mut body, 1, inside, continuing)?;
    Ok(body)
}

/// A loop around 9,999 statements, of which each tenth writes one of ten locals.
fn large(alloc: Global) -> Result<Items<CoreStatement>, AllocError> {
    let mut inside = Items::new(alloc);
    for number in 1..10000_u32 {
        if number % 10 == 0 {
            add_store(
                alloc,
                &mut inside,
                number,
                Base::Local(number / 10 % 10),
                true,
            )?;
        } else {
            add_load(alloc, &mut inside, number)?;
        }
    }
    let mut body = Items::new(alloc);
    add_loop(&mut body, 0, inside, Items::new(alloc))?;
    Ok(body)
}

/// A function of ten locals with a pointer parameter and this body.
fn function_of(alloc: Global, body: Items<CoreStatement>) -> Result<CoreFunction, AllocError> {
    let mut params = Items::new(alloc);
    params.push(CoreParam::Pointer(Space::Function, TypeId(0)))?;
    let mut locals = Items::new(alloc);
    for _ in 0..10 {
        locals.push(TypeId(0))?;
    }
    Ok(CoreFunction {
        name: Name::from_text(alloc, "f")?,
        place: NOWHERE,
        params,
        locals,
        result: None,
        entry: None,
        body,
    })
}

/// That exactly the definitions of each row reach its statement.
fn tells(
    rt: &impl Abort,
    alloc: Global,
    body: Items<CoreStatement>,
    rows: &[Row],
) -> Result<(), Fail> {
    let function = function_of(alloc, body)?;
    assert!(rt; is_counted(&function));
    let kept = reaching(alloc, &function)?;
    for (statement, variable, definitions) in rows {
        let found = kept.before(alloc, *statement, *variable)?;
        assert!(rt; found.as_slice() == *definitions, "before {statement}");
    }
    Ok(())
}

#[test]
fn the_definitions_that_reach(rt: HostRuntime) -> Result<(), Fail> {
    let alloc = rt.alloc();
    tells(&rt, alloc, branching(alloc)?, BRANCHING)?;
    tells(&rt, alloc, looping(alloc)?, LOOPING)?;
    tells(&rt, alloc, switching(alloc)?, SWITCHING)?;
    tells(&rt, alloc, calling(alloc)?, CALLING)?;
    tells(&rt, alloc, dead(alloc)?, DEAD)
}

#[test]
fn a_function_of_ten_thousand_statements(rt: HostRuntime) -> Result<(), Fail> {
    let alloc = rt.alloc();
    tells(&rt, alloc, large(alloc)?, LARGE)
}
