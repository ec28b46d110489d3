//! Aliases: two arguments of one variable, an argument and its own variable, uses some calls down, and which alias is the first.

use shade_base::{Place, Severity};
use shade_chains::{order_of_calls, rows_of};
use shade_core::{
    Act, Argument, Arguments, Base, CoreFunction, CoreModule, CoreParam, CoreStatement, Operand,
    View, ViewStep,
};
use shade_rules::{AliasFault, AliasOther, aliases, calls_take_few};
use shade_samples::NOWHERE;
use shade_values::{Name, Op, Space, TypeId, TypeTable};
use sqlite_items::Items;
use std::alloc::{AllocError, Global};
use std::test::Fail;

/// What a function does with its pointers `p`, `q` and `r`, and with the variable `w` of the module.
#[derive(Clone, Copy, Debug)]
enum Callee {
    /// `*p = *q;`
    Copies,
    /// `*q = *p;`
    CopiesBack,
    /// `_ = *p + *q;`
    Reads,
    /// `*p = v;`, and nothing of `q`
    Writes,
    /// `atomicLoad(p); atomicLoad(q);`
    LoadsAtomics,
    /// `atomicStore(p, v); atomicStore(q, v);`
    StoresAtomics,
    /// `atomicAdd(p, v); atomicLoad(q);`
    AddsAtomics,
    /// `workgroupUniformLoad(p); *q = v;`
    LoadsUniformly,
    /// `arrayLength(p); *q = v;`
    TakesLength,
    /// `w = *p;`
    StoresVariable,
    /// `*p = w;`
    LoadsVariable,
    /// `_ = *p; writer(&w);`, where `writer` stores through its pointer
    HandsVariable,
    /// `*p = *q; w = v;`
    CopiesAndStores,
    /// `w = *p; *q = *r;`
    StoresAndCopies,
}

/// The variables that a call hands over.
#[derive(Clone, Copy, Debug)]
struct Handed {
    first: Base,
    second: Base,
    third: Option<Base>,
}

/// A callee, what one call hands over and what another one behind it, and the alias: the number of its call, the argument and the other.
type Row = (
    Callee,
    Handed,
    Option<Handed>,
    Option<(u32, u32, AliasOther)>,
);

const X: Base = Base::Local(0);

const Y: Base = Base::Local(1);

const W: Base = Base::Module(0);

const P: Base = Base::Pointee(0);

const Q: Base = Base::Pointee(1);

const R: Base = Base::Pointee(2);

const X_X: Handed = Handed {
    first: X,
    second: X,
    third: None,
};

const X_Y: Handed = Handed { second: Y, ..X_X };

const X_W: Handed = Handed { second: W, ..X_X };

const W_X: Handed = Handed { first: W, ..X_X };

const W_W: Handed = Handed { second: W, ..W_X };

const W_X_X: Handed = Handed {
    third: Some(X),
    ..W_X
};

const P_P: Handed = Handed {
    first: P,
    second: P,
    third: None,
};

const P_Q: Handed = Handed { second: Q, ..P_P };

const P_Q_R: Handed = Handed {
    third: Some(R),
    ..P_Q
};

/// The first argument with the second one.
const SECOND: AliasOther = AliasOther::Argument(1);

/// The first argument with its variable.
const OWN: AliasOther = AliasOther::Variable(0);

const ROWS: &[Row] = &[
    (Callee::Copies, X_X, None, Some((0, 0, SECOND))),
    (Callee::Copies, X_Y, None, None),
    (Callee::Copies, W_W, None, Some((0, 0, SECOND))),
    (Callee::Copies, X_Y, Some(X_X), Some((1, 0, SECOND))),
    (Callee::Copies, X_X, Some(W_W), Some((0, 0, SECOND))),
    (Callee::CopiesBack, X_X, None, Some((0, 0, SECOND))),
    (Callee::Reads, X_X, None, None),
    (Callee::Writes, X_X, None, None),
    (Callee::LoadsAtomics, W_W, None, None),
    (Callee::StoresAtomics, W_W, None, Some((0, 0, SECOND))),
    (Callee::AddsAtomics, W_W, None, Some((0, 0, SECOND))),
    (Callee::LoadsUniformly, W_W, None, Some((0, 0, SECOND))),
    (Callee::TakesLength, W_W, None, None),
    (Callee::StoresVariable, W_X, None, Some((0, 0, OWN))),
    (Callee::StoresVariable, W_W, None, Some((0, 0, OWN))),
    (Callee::StoresVariable, X_W, None, None),
    (Callee::LoadsVariable, W_X, None, Some((0, 0, OWN))),
    (Callee::LoadsVariable, X_W, None, None),
    (Callee::HandsVariable, W_X, None, Some((0, 0, OWN))),
    (Callee::CopiesAndStores, W_W, None, Some((0, 0, SECOND))),
    (Callee::StoresAndCopies, W_X_X, None, Some((0, 0, OWN))),
];

type List = Items<CoreStatement>;

fn view(alloc: Global, base: Base) -> View {
    View {
        base,
        steps: Items::new(alloc),
    }
}

/// A place by an offset.
fn at(offset: u32) -> Place {
    Place { offset, ..NOWHERE }
}

/// Adds a statement, whose place has its number as offset.
fn add(list: &mut List, number: u32, act: Act) -> Result<(), AllocError> {
    let place = at(number);
    list.push(CoreStatement { number, place, act })
}

fn load(alloc: Global, list: &mut List, number: u32, base: Base) -> Result<(), AllocError> {
    let view = view(alloc, base);
    add(list, number, Act::Load { view })
}

fn store(alloc: Global, list: &mut List, number: u32, base: Base) -> Result<(), AllocError> {
    let view = view(alloc, base);
    let value = Operand::Temp(0);
    add(list, number, Act::Store { view, value })
}

/// Adds a load of one variable and a store to another.
fn copy(alloc: Global, list: &mut List, from: Base, to: Base) -> Result<(), AllocError> {
    load(alloc, list, 0, from)?;
    store(alloc, list, 1, to)
}

fn atomic(
    alloc: Global,
    list: &mut List,
    number: u32,
    op: Op,
    base: Base,
) -> Result<(), AllocError> {
    let view = view(alloc, base);
    let args = Items::new(alloc);
    add(list, number, Act::Atomic { op, view, args })
}

/// Adds one operation on each of two atomics.
fn atomics(alloc: Global, list: &mut List, first: Op, second: Op) -> Result<(), AllocError> {
    atomic(alloc, list, 0, first, P)?;
    atomic(alloc, list, 1, second, Q)
}

/// Adds a call of the function that stores through its pointer, with `w`.
fn hand_variable(alloc: Global, list: &mut List) -> Result<(), AllocError> {
    let mut args: Arguments = Items::new(alloc);
    args.push(Argument::Pointer(view(alloc, W)))?;
    add(list, 1, Act::Call { function: 0, args })
}

fn uniform_load(alloc: Global, list: &mut List) -> Result<(), AllocError> {
    let view = view(alloc, P);
    let severity = Severity::Error;
    add(list, 0, Act::UniformLoad { view, severity })
}

fn body_of(alloc: Global, callee: Callee) -> Result<List, AllocError> {
    let mut list = Items::new(alloc);
    match callee {
        Callee::Copies => copy(alloc, &mut list, Q, P)?,
        Callee::CopiesBack => copy(alloc, &mut list, P, Q)?,
        Callee::Reads => {
            load(alloc, &mut list, 0, P)?;
            load(alloc, &mut list, 1, Q)?;
        }
        Callee::Writes => store(alloc, &mut list, 0, P)?,
        Callee::LoadsAtomics => atomics(alloc, &mut list, Op::AtomicLoad, Op::AtomicLoad)?,
        Callee::StoresAtomics => atomics(alloc, &mut list, Op::AtomicStore, Op::AtomicStore)?,
        Callee::AddsAtomics => atomics(alloc, &mut list, Op::AtomicAdd, Op::AtomicLoad)?,
        Callee::LoadsUniformly => {
            uniform_load(alloc, &mut list)?;
            store(alloc, &mut list, 1, Q)?;
        }
        Callee::TakesLength => {
            let view = view(alloc, P);
            add(&mut list, 0, Act::Length { view })?;
            store(alloc, &mut list, 1, Q)?;
        }
        Callee::StoresVariable => copy(alloc, &mut list, P, W)?,
        Callee::LoadsVariable => copy(alloc, &mut list, W, P)?,
        Callee::HandsVariable => {
            load(alloc, &mut list, 0, P)?;
            hand_variable(alloc, &mut list)?;
        }
        Callee::CopiesAndStores => {
            copy(alloc, &mut list, Q, P)?;
            store(alloc, &mut list, 2, W)?;
        }
        Callee::StoresAndCopies => {
            copy(alloc, &mut list, P, W)?;
            copy(alloc, &mut list, R, Q)?;
        }
    }
    Ok(list)
}

/// Adds a call with views of these, the second of a part.
fn call(
    alloc: Global,
    list: &mut List,
    number: u32,
    function: u32,
    handed: Handed,
) -> Result<(), AllocError> {
    let mut args: Arguments = Items::new(alloc);
    args.push(Argument::Pointer(view(alloc, handed.first)))?;
    let mut part = view(alloc, handed.second);
    part.steps.push(ViewStep::Member(1))?;
    args.push(Argument::Pointer(part))?;
    if let Some(third) = handed.third {
        args.push(Argument::Pointer(view(alloc, third)))?;
    }
    add(list, number, Act::Call { function, args })
}

/// Adds a function with so many pointers.
fn add_function(
    alloc: Global,
    functions: &mut Items<CoreFunction>,
    pointers: u32,
    body: List,
) -> Result<(), AllocError> {
    let mut params = Items::new(alloc);
    for _ in 0..pointers {
        params.push(CoreParam::Pointer(Space::Function, TypeId(0)))?;
    }
    functions.push(CoreFunction {
        name: Name::from_text(alloc, "f")?,
        place: NOWHERE,
        params,
        locals: Items::new(alloc),
        result: None,
        entry: None,
        body,
    })
}

/// The function with the calls: one, or two.
fn calls(
    alloc: Global,
    called: u32,
    first: Handed,
    second: Option<Handed>,
) -> Result<List, AllocError> {
    let mut list = Items::new(alloc);
    call(alloc, &mut list, 0, called, first)?;
    if let Some(handed) = second {
        call(alloc, &mut list, 1, called, handed)?;
    }
    Ok(list)
}

/// The number of the callee, and of the function between.
const CALLEE: u32 = 1;

const BETWEEN: u32 = 2;

/// A module: a function that stores through its pointer, the callee, a function that hands its own pointers on to it by a call with
/// number 7, and one with this body.
fn module_of(
    alloc: Global,
    callee: Callee,
    between: Handed,
    outer: List,
) -> Result<CoreModule, AllocError> {
    let pointers = if between.third.is_some() { 3 } else { 2 };
    let mut functions = Items::new(alloc);
    let writer = body_of(alloc, Callee::Writes)?;
    add_function(alloc, &mut functions, 1, writer)?;
    let body = body_of(alloc, callee)?;
    add_function(alloc, &mut functions, pointers, body)?;
    let mut handing = Items::new(alloc);
    call(alloc, &mut handing, 7, CALLEE, between)?;
    add_function(alloc, &mut functions, pointers, handing)?;
    add_function(alloc, &mut functions, 0, outer)?;
    Ok(CoreModule {
        types: TypeTable::new(alloc),
        roots: Items::new(alloc),
        functions,
    })
}

/// The alias of a module.
fn fault_of(alloc: Global, module: &CoreModule) -> Result<Option<AliasFault>, Fail> {
    let functions = module.functions.as_slice();
    if functions.len() > 1_000 {
        return Err(Fail::from("too many functions"));
    }
    if !calls_take_few(alloc, module)? {
        return Err(Fail::from("too many arguments"));
    }
    let events = rows_of(alloc, functions)?;
    let Some(_order) = order_of_calls(alloc, module, &events)? else {
        return Err(Fail::from("a cycle"));
    };
    match aliases(alloc, module) {
        Ok(()) => Ok(None),
        Err(fault) => Ok(Some(fault)),
    }
}

fn alias(call: u32, first: u32, second: AliasOther) -> AliasFault {
    AliasFault::Alias {
        place: at(call),
        first,
        second,
    }
}

/// The first alias of a row, where its calls are of the callee or of the function between.
fn alias_of_row(alloc: Global, row: &Row, called: u32) -> Result<Option<AliasFault>, Fail> {
    let (callee, first, second, _) = *row;
    let between = if first.third.is_some() { P_Q_R } else { P_Q };
    let outer = calls(alloc, called, first, second)?;
    let module = module_of(alloc, callee, between, outer)?;
    fault_of(alloc, &module)
}

#[test]
fn aliases_of_calls(rt: HostRuntime) -> Result<(), Fail> {
    let alloc = rt.alloc();
    for row in ROWS {
        let expected = row
            .3
            .map(|(number, first, second)| alias(number, first, second));
        for called in CALLEE..BETWEEN + 1 {
            let told = alias_of_row(alloc, row, called)?;
            assert_eq!(rt; told, expected, "{row:?} {called}");
        }
    }
    Ok(())
}

#[test]
fn one_pointer_handed_on_twice(rt: HostRuntime) -> Result<(), Fail> {
    let alloc = rt.alloc();
    let module = module_of(alloc, Callee::Copies, P_P, Items::new(alloc))?;
    let told = fault_of(alloc, &module)?;
    assert_eq!(rt; told, Some(alias(7, 0, SECOND)));
    let module = module_of(alloc, Callee::Reads, P_P, Items::new(alloc))?;
    let told = fault_of(alloc, &module)?;
    assert_eq!(rt; told, None);
    Ok(())
}
