//! Modules by hand, on which the rows of several files stand.

use shade_base::Severity;
use shade_core::{
    Act, Argument, Base, BuiltinInput, CoreFunction, CoreModule, CoreParam, CoreStatement,
    Functions, Operand, Root, View, ViewStep,
};
use shade_samples::{NOWHERE, only, statement};
use shade_values::{Access, Leaf, Name, Op, Scalar, ShadeType, Space, TypeId, TypeTable, Value};
use shade_whole::check_shape;
use sqlite_items::Items;
use std::alloc::{AllocError, Global};
use std::test::Fail;

pub(crate) const U: TypeId = TypeId(0);

pub(crate) const LIST: TypeId = TypeId(1);

pub(crate) const POINTER: TypeId = TypeId(2);

pub(crate) const FOUR: TypeId = TypeId(3);

pub(crate) const READER: TypeId = TypeId(4);

pub(crate) const I: TypeId = TypeId(5);

pub(crate) const B: TypeId = TypeId(6);

pub(crate) const COUNTER: TypeId = TypeId(7);

pub(crate) const ABSTRACT: TypeId = TypeId(8);

pub(crate) const PAIR: TypeId = TypeId(9);

pub(crate) const MISSING: TypeId = TypeId(99);

/// `u32`, `array<u32>`, `ptr<function, u32>`, `array<u32, 4>`, `ptr<storage, u32, read>`, `i32`, `bool`, `atomic<u32>`, AbstractInt,
/// `vec2<u32>`, and the vector of two AbstractInt.
pub(crate) fn types(alloc: Global) -> Result<TypeTable, Fail> {
    let mut table = TypeTable::new(alloc);
    let word = table.add(ShadeType::Plain(Scalar::U32))?;
    let _ = table.add(ShadeType::RuntimeArray(word))?;
    let _ = table.add(ShadeType::Pointer(Space::Function, word, Access::ReadWrite))?;
    let _ = table.add(ShadeType::Array(word, 4))?;
    let _ = table.add(ShadeType::Pointer(Space::Storage, word, Access::Read))?;
    let _ = table.add(ShadeType::Plain(Scalar::I32))?;
    let _ = table.add(ShadeType::Plain(Scalar::Bool))?;
    let _ = table.add(ShadeType::Atomic(Scalar::U32))?;
    let _ = table.add(ShadeType::Plain(Scalar::Abstract))?;
    let _ = table.add(ShadeType::Vector(2, Scalar::U32))?;
    let _ = table.add(ShadeType::Vector(2, Scalar::Abstract))?;
    Ok(table)
}

pub(crate) fn leaf(scalar: Scalar, number: i64) -> Value {
    Value::One(Leaf { scalar, number })
}

/// An operand of a row.
#[derive(Clone, Copy, Debug)]
pub(crate) enum Given {
    /// A constant of a type, with the scalar and the number of its value.
    Value(TypeId, Scalar, i64),
    Param(u32),
    Temp(u32),
}

pub(crate) fn operand(given: Given) -> Operand {
    match given {
        Given::Value(id, scalar, number) => Operand::Constant(id, leaf(scalar, number)),
        Given::Param(number) => Operand::Param(number),
        Given::Temp(number) => Operand::Temp(number),
    }
}

pub(crate) fn operands(alloc: Global, given: &[Given]) -> Result<Items<Operand>, AllocError> {
    let mut list = Items::new(alloc);
    for one in given {
        list.push(operand(*one))?;
    }
    Ok(list)
}

pub(crate) const WORD: Given = Given::Value(U, Scalar::U32, 1);

pub(crate) const SIGNED: Given = Given::Value(I, Scalar::I32, 1);

pub(crate) const TRUTH: Given = Given::Value(B, Scalar::Bool, 1);

pub(crate) fn root(
    alloc: Global,
    name: &str,
    space: Space,
    access: Access,
    ty: TypeId,
) -> Result<Root, AllocError> {
    Ok(Root {
        name: Name::from_text(alloc, name)?,
        space,
        access,
        ty,
        initial: None,
    })
}

/// A word and a counter of the workgroup, a list that is only read, and a list that is written.
pub(crate) fn roots(alloc: Global) -> Result<Items<Root>, AllocError> {
    let mut list = Items::new(alloc);
    list.push(root(alloc, "w", Space::Workgroup, Access::ReadWrite, U)?)?;
    list.push(root(alloc, "c", Space::Workgroup, Access::ReadWrite, COUNTER)?)?;
    list.push(root(alloc, "r", Space::Storage, Access::Read, LIST)?)?;
    list.push(root(alloc, "s", Space::Storage, Access::ReadWrite, LIST)?)?;
    Ok(list)
}

/// `fn f(a: u32, p: ptr<function, u32>) -> u32 { return a; }`
pub(crate) fn helper(alloc: Global) -> Result<CoreFunction, AllocError> {
    let mut params = Items::new(alloc);
    params.push(CoreParam::Plain(U))?;
    params.push(CoreParam::Pointer(Space::Function, POINTER))?;
    let mut body = Items::new(alloc);
    let value = Some(Operand::Param(0));
    body.push(statement(0, Act::Return { value }))?;
    Ok(CoreFunction {
        name: Name::from_text(alloc, "f")?,
        place: NOWHERE,
        params,
        locals: Items::new(alloc),
        result: Some(U),
        entry: None,
        body,
    })
}

/// An entry of two lanes with this body and two locals, a word and a truth.
pub(crate) fn entry(alloc: Global, body: Items<CoreStatement>) -> Result<CoreFunction, AllocError> {
    let mut params = Items::new(alloc);
    params.push(CoreParam::Input(BuiltinInput::LocalIndex))?;
    let mut locals = Items::new(alloc);
    locals.push(U)?;
    locals.push(B)?;
    Ok(CoreFunction {
        name: Name::from_text(alloc, "main")?,
        place: NOWHERE,
        params,
        locals,
        result: None,
        entry: Some([2, 1, 1]),
        body,
    })
}

/// What the test says of a module.
pub(crate) fn is_shaped(alloc: Global, module: CoreModule) -> Result<bool, AllocError> {
    check_shape(alloc, &module)
}

/// The entry with this body, and the helper.
pub(crate) fn functions_of(
    alloc: Global,
    body: Items<CoreStatement>,
) -> Result<Functions, AllocError> {
    let mut functions = Items::new(alloc);
    functions.push(entry(alloc, body)?)?;
    functions.push(helper(alloc)?)?;
    Ok(functions)
}

/// The module of these types and roots whose entry has this body.
pub(crate) fn module_of(alloc: Global, body: Items<CoreStatement>) -> Result<CoreModule, Fail> {
    let functions = functions_of(alloc, body)?;
    let roots = roots(alloc)?;
    Ok(CoreModule {
        types: types(alloc)?,
        roots,
        functions,
    })
}

#[derive(Clone, Copy, Debug)]
pub(crate) enum Memory {
    Set(Op, &'static [Given]),
    Load(Base, Option<Given>),
    Store(Base, Option<Given>, Given),
    Declare(u32, Option<Given>),
    Atomic(Op, Base, &'static [Given]),
    UniformLoad(Base, Option<Given>),
    Length(Base),
    Barrier(Space),
    /// A call with values, and with a pointer to what a view names.
    Call(u32, &'static [Given], Option<(Base, Option<Given>)>),
    Return(Option<Given>),
}

pub(crate) fn view(alloc: Global, base: Base, index: Option<Given>) -> Result<View, AllocError> {
    let mut steps = Items::new(alloc);
    if let Some(given) = index {
        steps.push(ViewStep::Index(operand(given)))?;
    }
    Ok(View { base, steps })
}

pub(crate) fn maybe(given: Option<Given>) -> Option<Operand> {
    match given {
        Some(given) => Some(operand(given)),
        None => None,
    }
}

pub(crate) fn call(
    alloc: Global,
    function: u32,
    given: &[Given],
    pointer: Option<(Base, Option<Given>)>,
) -> Result<Act, AllocError> {
    let mut args = Items::new(alloc);
    for one in given {
        args.push(Argument::Plain(operand(*one)))?;
    }
    if let Some((base, index)) = pointer {
        args.push(Argument::Pointer(view(alloc, base, index)?))?;
    }
    Ok(Act::Call { function, args })
}

pub(crate) fn memory_act(alloc: Global, memory: Memory) -> Result<Act, AllocError> {
    let act = match memory {
        Memory::Set(op, given) => Act::Set {
            op,
            args: operands(alloc, given)?,
        },
        Memory::Load(base, index) => Act::Load {
            view: view(alloc, base, index)?,
        },
        Memory::Store(base, index, value) => Act::Store {
            view: view(alloc, base, index)?,
            value: operand(value),
        },
        Memory::Declare(local, value) => Act::Declare {
            local,
            value: maybe(value),
        },
        Memory::Atomic(op, base, given) => Act::Atomic {
            op,
            view: view(alloc, base, None)?,
            args: operands(alloc, given)?,
        },
        Memory::UniformLoad(base, index) => Act::UniformLoad {
            view: view(alloc, base, index)?,
            severity: Severity::Warning,
        },
        Memory::Length(base) => Act::Length {
            view: view(alloc, base, None)?,
        },
        Memory::Barrier(space) => Act::Barrier {
            space,
            severity: Severity::Warning,
        },
        Memory::Call(function, given, pointer) => return call(alloc, function, given, pointer),
        Memory::Return(value) => Act::Return {
            value: maybe(value),
        },
    };
    Ok(act)
}

pub(crate) const W: Base = Base::Module(0);

pub(crate) const C: Base = Base::Module(1);

pub(crate) const R: Base = Base::Module(2);

pub(crate) const S: Base = Base::Module(3);

pub(crate) const X: Base = Base::Local(0);

/// Adds an If with these parts.
pub(crate) fn add_if(
    list: &mut Items<CoreStatement>,
    number: u32,
    cond: Given,
    yes: Items<CoreStatement>,
    no: Items<CoreStatement>,
) -> Result<(), AllocError> {
    let cond = operand(cond);
    list.push(statement(number, Act::If { cond, yes, no }))
}

pub(crate) fn add_loop(
    list: &mut Items<CoreStatement>,
    number: u32,
    body: Items<CoreStatement>,
    continuing: Items<CoreStatement>,
    leave: Given,
) -> Result<(), AllocError> {
    let leave = Some(operand(leave));
    let act = Act::Loop {
        body,
        continuing,
        leave,
    };
    list.push(statement(number, act))
}

pub(crate) fn add_return(list: &mut Items<CoreStatement>, number: u32) -> Result<(), AllocError> {
    list.push(statement(number, Act::Return { value: None }))
}

/// Adds `x`.
pub(crate) fn add_load(
    alloc: Global,
    list: &mut Items<CoreStatement>,
    number: u32,
) -> Result<(), AllocError> {
    let view = view(alloc, X, None)?;
    list.push(statement(number, Act::Load { view }))
}

/// Adds `x = t`, of the value of a statement.
pub(crate) fn add_store(
    alloc: Global,
    list: &mut Items<CoreStatement>,
    number: u32,
    value: u32,
) -> Result<(), AllocError> {
    let view = view(alloc, X, None)?;
    let value = Operand::Temp(value);
    list.push(statement(number, Act::Store { view, value }))
}

/// Adds `if (true) { continue; }`
pub(crate) fn add_skip(
    alloc: Global,
    list: &mut Items<CoreStatement>,
    number: u32,
) -> Result<(), AllocError> {
    let yes = only(alloc, statement(number.saturating_add(1), Act::Continue))?;
    add_if(list, number, TRUTH, yes, Items::new(alloc))
}

/// A function with a parameter that returns this value.
pub(crate) fn more_function(
    alloc: Global,
    name: &str,
    param: CoreParam,
    size: Option<[u32; 3]>,
    gives: Option<TypeId>,
    value: Option<Given>,
) -> Result<CoreFunction, AllocError> {
    let mut params = Items::new(alloc);
    params.push(param)?;
    let mut body = Items::new(alloc);
    let value = maybe(value);
    body.push(statement(0, Act::Return { value }))?;
    Ok(CoreFunction {
        name: Name::from_text(alloc, name)?,
        place: NOWHERE,
        params,
        locals: Items::new(alloc),
        result: gives,
        entry: size,
        body,
    })
}

/// The module whose entry is of this statement and a Return.
pub(crate) fn memory_module(alloc: Global, memory: Memory) -> Result<CoreModule, Fail> {
    let mut body = only(alloc, statement(0, memory_act(alloc, memory)?))?;
    add_return(&mut body, 1)?;
    module_of(alloc, body)
}
