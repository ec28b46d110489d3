//! Behaviours of statements, and what is refused: loops, switches, continuing parts and ends of functions.

use shade_base::Place;
use shade_core::{Act, Behaviour, CoreFunction, CoreModule, CoreStatement, Operand, SwitchPart};
use shade_rules::{BehaviourFault, behaviours};
use shade_samples::NOWHERE;
use shade_values::{Name, TypeId, TypeTable};
use sqlite_items::Items;
use std::alloc::{AllocError, Global};
use std::test::Fail;

/// The body of a function.
#[derive(Clone, Copy, Debug)]
enum Body {
    /// `loop { if (c) { break; } continue; } return;`
    LeftLoop,
    /// `loop { switch (s) { case 1 { break; } default { return; } } continuing { break if c; } } return;`
    SwitchInLoop,
    /// `if (c) { return; }`
    Open,
    /// `return; break;`, whose last statement is never reached
    NeverReached,
    /// `loop { switch (s) { default { break; } } }`
    BreakOfSwitch,
    /// `loop { loop { } }`
    TwoLoops,
    /// `loop { break; continuing { return; } }`
    ReturnAtEnd,
    /// `loop { continuing { continue; } }`
    ContinueAtEnd,
    /// `switch (s) { default { continue; } }`
    ContinueInSwitch,
    /// `if (c) { break; } loop { }`
    BreakFirst,
    /// `if (c) { break; }`
    OpenBreak,
    /// `loop { break; continuing { break; } }`
    BreakAtEnd,
    /// `loop { continuing { break if c; } }`
    LeftAtEnd,
}

const PASSES_OR_BREAKS: Behaviour = Behaviour {
    next: true,
    ..Behaviour::BREAK
};

const PASSES_OR_RETURNS: Behaviour = Behaviour {
    next: true,
    ..Behaviour::RETURN
};

/// Bodies, and the behaviours of their statements.
const SETS: &[(Body, &[Behaviour])] = &[
    (
        Body::LeftLoop,
        &[
            Behaviour::NEXT,
            PASSES_OR_BREAKS,
            Behaviour::BREAK,
            Behaviour::CONTINUE,
            Behaviour::RETURN,
        ],
    ),
    (
        Body::SwitchInLoop,
        &[
            PASSES_OR_RETURNS,
            PASSES_OR_RETURNS,
            Behaviour::BREAK,
            Behaviour::RETURN,
            Behaviour::RETURN,
        ],
    ),
    (Body::Open, &[PASSES_OR_RETURNS, Behaviour::RETURN]),
    (Body::LeftAtEnd, &[Behaviour::NEXT]),
];

const FIRST: Place = Place {
    offset: 0,
    ..NOWHERE
};

const SECOND: Place = Place {
    offset: 1,
    ..NOWHERE
};
/// The place of a function's name.
const NAME: Place = Place {
    offset: 100,
    ..NOWHERE
};

/// Bodies of a function without a result, and their first faults.
const FAULTS: &[(Body, BehaviourFault)] = &[
    (Body::NeverReached, BehaviourFault::Escapes(SECOND)),
    (Body::BreakOfSwitch, BehaviourFault::Empty(FIRST)),
    (Body::TwoLoops, BehaviourFault::Empty(FIRST)),
    (Body::ReturnAtEnd, BehaviourFault::ContinuingLeaves(FIRST)),
    (Body::ContinueAtEnd, BehaviourFault::Empty(FIRST)),
    (Body::ContinueInSwitch, BehaviourFault::Escapes(SECOND)),
    (Body::BreakFirst, BehaviourFault::Escapes(SECOND)),
    (Body::BreakAtEnd, BehaviourFault::ContinuingLeaves(FIRST)),
];

type List = Items<CoreStatement>;

/// Adds a statement, whose place has its number as offset.
fn add(list: &mut List, number: u32, act: Act) -> Result<(), AllocError> {
    let place = Place {
        offset: number,
        ..NOWHERE
    };
    list.push(CoreStatement { number, place, act })
}

/// A list of one jump.
fn jump(alloc: Global, number: u32, act: Act) -> Result<List, AllocError> {
    let mut list = Items::new(alloc);
    add(&mut list, number, act)?;
    Ok(list)
}

fn returns(alloc: Global, number: u32) -> Result<List, AllocError> {
    jump(alloc, number, Act::Return { value: None })
}

/// Adds `if (c) { .. }`.
fn add_if(alloc: Global, list: &mut List, number: u32, yes: List) -> Result<(), AllocError> {
    let no = Items::new(alloc);
    let cond = Operand::Param(0);
    add(list, number, Act::If { cond, yes, no })
}

/// Adds `loop { .. continuing { .. } }`.
fn add_loop(list: &mut List, number: u32, body: List, continuing: List) -> Result<(), AllocError> {
    let leave = None;
    let act = Act::Loop {
        body,
        continuing,
        leave,
    };
    add(list, number, act)
}

/// Adds `loop { .. continuing { break if c; } }`.
fn add_left_loop(
    alloc: Global,
    list: &mut List,
    number: u32,
    body: List,
) -> Result<(), AllocError> {
    let act = Act::Loop {
        body,
        continuing: Items::new(alloc),
        leave: Some(Operand::Param(0)),
    };
    add(list, number, act)
}

/// Adds a switch with a part for 1, if it is given, and a fallback.
fn add_switch(
    alloc: Global,
    list: &mut List,
    number: u32,
    one: Option<List>,
    body: List,
) -> Result<(), AllocError> {
    let mut parts = Items::new(alloc);
    if let Some(body) = one {
        let mut keys = Items::new(alloc);
        keys.push(1)?;
        parts.push(SwitchPart {
            keys,
            fallback: false,
            body,
        })?;
    }
    parts.push(SwitchPart {
        keys: Items::new(alloc),
        fallback: true,
        body,
    })?;
    let selector = Operand::Param(0);
    add(list, number, Act::Switch { selector, parts })
}

fn left_loop(alloc: Global) -> Result<List, AllocError> {
    let mut inside = Items::new(alloc);
    add_if(alloc, &mut inside, 1, jump(alloc, 2, Act::Break)?)?;
    add(&mut inside, 3, Act::Continue)?;
    let mut list = Items::new(alloc);
    add_loop(&mut list, 0, inside, Items::new(alloc))?;
    add(&mut list, 4, Act::Return { value: None })?;
    Ok(list)
}

fn switch_in_loop(alloc: Global) -> Result<List, AllocError> {
    let mut body = Items::new(alloc);
    let breaks = jump(alloc, 2, Act::Break)?;
    add_switch(alloc, &mut body, 1, Some(breaks), returns(alloc, 3)?)?;
    let mut list = Items::new(alloc);
    add_left_loop(alloc, &mut list, 0, body)?;
    add(&mut list, 4, Act::Return { value: None })?;
    Ok(list)
}

fn break_of_switch(alloc: Global) -> Result<List, AllocError> {
    let mut inside = Items::new(alloc);
    add_switch(alloc, &mut inside, 1, None, jump(alloc, 2, Act::Break)?)?;
    let mut list = Items::new(alloc);
    add_loop(&mut list, 0, inside, Items::new(alloc))?;
    Ok(list)
}

fn two_loops(alloc: Global) -> Result<List, AllocError> {
    let mut inside = Items::new(alloc);
    add_loop(&mut inside, 1, Items::new(alloc), Items::new(alloc))?;
    let mut list = Items::new(alloc);
    add_loop(&mut list, 0, inside, Items::new(alloc))?;
    Ok(list)
}

fn break_first(alloc: Global) -> Result<List, AllocError> {
    let mut list = Items::new(alloc);
    add_if(alloc, &mut list, 0, jump(alloc, 1, Act::Break)?)?;
    add_loop(&mut list, 2, Items::new(alloc), Items::new(alloc))?;
    Ok(list)
}

/// A body of one list of jumps in a loop, a switch or a branch.
fn body_of(alloc: Global, body: Body) -> Result<List, AllocError> {
    let mut list = Items::new(alloc);
    match body {
        Body::LeftLoop => return left_loop(alloc),
        Body::SwitchInLoop => return switch_in_loop(alloc),
        Body::BreakOfSwitch => return break_of_switch(alloc),
        Body::TwoLoops => return two_loops(alloc),
        Body::BreakFirst => return break_first(alloc),
        Body::Open => add_if(alloc, &mut list, 0, returns(alloc, 1)?)?,
        Body::OpenBreak => add_if(alloc, &mut list, 0, jump(alloc, 1, Act::Break)?)?,
        Body::LeftAtEnd => add_left_loop(alloc, &mut list, 0, Items::new(alloc))?,
        Body::NeverReached => {
            add(&mut list, 0, Act::Return { value: None })?;
            add(&mut list, 1, Act::Break)?;
        }
        Body::ReturnAtEnd => {
            let inside = jump(alloc, 1, Act::Break)?;
            add_loop(&mut list, 0, inside, returns(alloc, 2)?)?;
        }
        Body::BreakAtEnd => {
            let inside = jump(alloc, 1, Act::Break)?;
            add_loop(&mut list, 0, inside, jump(alloc, 2, Act::Break)?)?;
        }
        Body::ContinueAtEnd => {
            let continuing = jump(alloc, 1, Act::Continue)?;
            add_loop(&mut list, 0, Items::new(alloc), continuing)?;
        }
        Body::ContinueInSwitch => {
            let inside = jump(alloc, 1, Act::Continue)?;
            add_switch(alloc, &mut list, 0, None, inside)?;
        }
    }
    Ok(list)
}

/// A module of a function for each body.
fn module_of(
    alloc: Global,
    bodies: &[Body],
    gives: Option<TypeId>,
) -> Result<CoreModule, AllocError> {
    let mut functions = Items::new(alloc);
    for body in bodies {
        functions.push(CoreFunction {
            name: Name::from_text(alloc, "f")?,
            place: NAME,
            params: Items::new(alloc),
            locals: Items::new(alloc),
            result: gives,
            entry: None,
            body: body_of(alloc, *body)?,
        })?;
    }
    Ok(CoreModule {
        types: TypeTable::new(alloc),
        roots: Items::new(alloc),
        functions,
    })
}

/// The fault of a module.
fn fault_of(
    alloc: Global,
    bodies: &[Body],
    gives: Option<TypeId>,
) -> Result<Option<BehaviourFault>, AllocError> {
    let module = module_of(alloc, bodies, gives)?;
    match behaviours(alloc, &module) {
        Ok(_) => Ok(None),
        Err(fault) => Ok(Some(fault)),
    }
}

#[test]
fn behaviours_of_statements(rt: HostRuntime) -> Result<(), Fail> {
    let alloc = rt.alloc();
    for (body, sets) in SETS {
        let module = module_of(alloc, &[*body], None)?;
        let found = behaviours(alloc, &module)?;
        let row = found.functions.as_slice().first().ok_or("no function")?;
        assert_eq!(rt; row.as_slice(), *sets, "{body:?}");
    }
    Ok(())
}

#[test]
fn refused_bodies(rt: HostRuntime) -> Result<(), Fail> {
    let alloc = rt.alloc();
    for (body, fault) in FAULTS {
        let told = fault_of(alloc, &[*body], None)?;
        assert_eq!(rt; told, Some(*fault), "{body:?}");
    }
    let told = fault_of(alloc, &[Body::Open], Some(TypeId(0)))?;
    assert_eq!(rt; told, Some(BehaviourFault::NoReturn(NAME)));
    let told = fault_of(alloc, &[Body::OpenBreak], Some(TypeId(0)))?;
    assert_eq!(rt; told, Some(BehaviourFault::Escapes(SECOND)));
    let bodies = [Body::LeftLoop, Body::NeverReached, Body::TwoLoops];
    let told = fault_of(alloc, &bodies, None)?;
    assert_eq!(rt; told, Some(BehaviourFault::Escapes(SECOND)));
    Ok(())
}
