//! The shape of whole modules by hand: types of variables, values and views, and the values that a loop may name, one demand broken in each row.

use crate::modules::{
    ABSTRACT, B, C, FOUR, Given, LIST, Memory, PAIR, POINTER, R, READER, S, SIGNED, TRUTH, U, WORD,
    add_load, add_loop, add_return, add_skip, add_store, entry, helper, is_shaped, memory_act,
    module_of, more_function, root, roots, types, view,
};
use shade_base::Severity;
use shade_core::{
    Act, Base, BuiltinInput, CoreFunction, CoreModule, CoreParam, CoreStatement, Functions, Root,
};
use shade_samples::{BarrierAt, NOWHERE, branching, compare, only, statement};
use shade_values::{Access, Name, Op, Scalar, ShadeType, Space, TypeId, TypeTable};
use sqlite_items::Items;
use std::alloc::{AllocError, Global};
use std::test::Fail;

/// What a module has beside what all modules by hand have.
#[derive(Clone, Copy, Debug)]
enum Beside {
    Nothing,
    /// A parameter of the entry, its number 1, is a place in three directions; and whether the table has their type.
    Directions(bool),
    /// A variable of the module, its number 4.
    Root(Space, Access, TypeId),
    /// A local of the entry, its number 2.
    Local(TypeId),
    /// A function of one parameter, its number 2.
    Takes(CoreParam),
}

/// Adds `vec3<u32>`.
fn add_directions(table: &mut TypeTable) {
    if table.count() < 1_000 {
        let _ = table.add(ShadeType::Vector(3, Scalar::U32));
    }
}

fn types_beside(alloc: Global, beside: Beside) -> Result<TypeTable, Fail> {
    let mut table = types(alloc)?;
    if let Beside::Directions(true) = beside {
        add_directions(&mut table);
    }
    Ok(table)
}

fn roots_beside(alloc: Global, beside: Beside) -> Result<Items<Root>, AllocError> {
    let mut list = roots(alloc)?;
    if let Beside::Root(space, access, ty) = beside {
        list.push(root(alloc, "more", space, access, ty)?)?;
    }
    Ok(list)
}

fn entry_beside(alloc: Global, beside: Beside, memory: Memory) -> Result<CoreFunction, AllocError> {
    let mut body = only(alloc, statement(0, memory_act(alloc, memory)?))?;
    add_return(&mut body, 1)?;
    let mut main = entry(alloc, body)?;
    match beside {
        Beside::Directions(_) => main.params.push(CoreParam::Input(BuiltinInput::LocalId))?,
        Beside::Local(ty) => main.locals.push(ty)?,
        _ => {}
    }
    Ok(main)
}

fn functions_beside(
    alloc: Global,
    beside: Beside,
    memory: Memory,
) -> Result<Functions, AllocError> {
    let mut functions = Items::new(alloc);
    functions.push(entry_beside(alloc, beside, memory)?)?;
    functions.push(helper(alloc)?)?;
    if let Beside::Takes(param) = beside {
        functions.push(more_function(alloc, "more", param, None, None, None)?)?;
    }
    Ok(functions)
}

/// The module with this beside, whose entry begins with this statement.
fn module_beside(alloc: Global, beside: Beside, memory: Memory) -> Result<CoreModule, Fail> {
    let functions = functions_beside(alloc, beside, memory)?;
    let roots = roots_beside(alloc, beside)?;
    Ok(CoreModule {
        types: types_beside(alloc, beside)?,
        roots,
        functions,
    })
}

const MORE: Base = Base::Module(4);

const BOTH: Access = Access::ReadWrite;

const TAKES_READER: Beside = Beside::Takes(CoreParam::Pointer(Space::Storage, READER));

const BESIDE: &[(Beside, Memory, bool)] = &[
    // AbstractInt in a variable, a local and a parameter
    (
        Beside::Root(Space::Private, BOTH, U),
        Memory::Return(None),
        true,
    ),
    (
        Beside::Root(Space::Private, BOTH, ABSTRACT),
        Memory::Return(None),
        false,
    ),
    (Beside::Local(U), Memory::Return(None), true),
    (Beside::Local(ABSTRACT), Memory::Return(None), false),
    (
        Beside::Takes(CoreParam::Plain(U)),
        Memory::Return(None),
        true,
    ),
    (
        Beside::Takes(CoreParam::Plain(ABSTRACT)),
        Memory::Return(None),
        false,
    ),
    // variables that their space does not hold, and how they are reached
    (
        Beside::Root(Space::Uniform, BOTH, U),
        Memory::Return(None),
        false,
    ),
    (
        Beside::Root(Space::Storage, Access::Read, U),
        Memory::Return(None),
        true,
    ),
    (
        Beside::Root(Space::Storage, Access::Read, B),
        Memory::Return(None),
        false,
    ),
    (
        Beside::Root(Space::Workgroup, BOTH, LIST),
        Memory::Return(None),
        false,
    ),
    (
        Beside::Root(Space::Uniform, Access::Read, U),
        Memory::Load(MORE, None),
        true,
    ),
    (
        Beside::Root(Space::Uniform, Access::Read, U),
        Memory::Store(MORE, None, WORD),
        false,
    ),
    // values that operations give, and the type of an input
    (
        Beside::Nothing,
        Memory::Set(Op::Vector(2, Scalar::U32), &[]),
        true,
    ),
    (
        Beside::Nothing,
        Memory::Set(Op::Vector(2, Scalar::Abstract), &[]),
        false,
    ),
    (
        Beside::Directions(true),
        Memory::Set(Op::Member(0), &[Given::Param(1)]),
        true,
    ),
    (
        Beside::Directions(false),
        Memory::Set(Op::Member(0), &[Given::Param(1)]),
        false,
    ),
    // one read for all lanes
    (
        Beside::Root(Space::Workgroup, BOTH, FOUR),
        Memory::UniformLoad(MORE, Some(WORD)),
        true,
    ),
    (
        Beside::Root(Space::Storage, BOTH, FOUR),
        Memory::UniformLoad(MORE, Some(WORD)),
        false,
    ),
    (Beside::Nothing, Memory::UniformLoad(C, None), false),
    // pointers to a component, of another type, of another space, of another access
    (
        Beside::Local(PAIR),
        Memory::Call(1, &[WORD], Some((Base::Local(2), Some(WORD)))),
        true,
    ),
    (
        Beside::Local(B),
        Memory::Call(1, &[WORD], Some((Base::Local(2), None))),
        false,
    ),
    (
        Beside::Root(Space::Private, BOTH, U),
        Memory::Call(1, &[WORD], Some((MORE, None))),
        false,
    ),
    (
        TAKES_READER,
        Memory::Call(2, &[], Some((R, Some(WORD)))),
        true,
    ),
    (
        TAKES_READER,
        Memory::Call(2, &[], Some((S, Some(WORD)))),
        false,
    ),
];

#[test]
fn types_of_variables_values_and_views(rt: HostRuntime) -> Result<(), Fail> {
    let alloc = rt.alloc();
    for (beside, memory, expected) in BESIDE {
        let found = is_shaped(alloc, module_beside(alloc, *beside, *memory)?)?;
        assert_eq!(rt; found, *expected, "{beside:?} {memory:?}");
    }
    Ok(())
}

/// The parameter of a function, its result, what it returns, and whether these fit.
const RETURNS: &[(CoreParam, Option<TypeId>, Option<Given>, bool)] = &[
    (CoreParam::Plain(U), Some(U), Some(Given::Param(0)), true),
    (CoreParam::Plain(U), Some(U), Some(SIGNED), false),
    (CoreParam::Plain(U), Some(U), None, false),
    (CoreParam::Plain(U), None, None, true),
    (
        CoreParam::Pointer(Space::Function, POINTER),
        Some(U),
        Some(WORD),
        true,
    ),
    (
        CoreParam::Pointer(Space::Function, POINTER),
        Some(U),
        Some(Given::Param(0)),
        false,
    ),
];

fn returning(
    alloc: Global,
    param: CoreParam,
    gives: Option<TypeId>,
    value: Option<Given>,
) -> Result<CoreModule, Fail> {
    let mut body = Items::new(alloc);
    add_return(&mut body, 0)?;
    let mut module = module_of(alloc, body)?;
    let more = more_function(alloc, "more", param, None, gives, value)?;
    module.functions.push(more)?;
    Ok(module)
}

#[test]
fn values_of_returns(rt: HostRuntime) -> Result<(), Fail> {
    let alloc = rt.alloc();
    for (param, gives, value, expected) in RETURNS {
        let found = is_shaped(alloc, returning(alloc, *param, *gives, *value)?)?;
        assert_eq!(rt; found, *expected, "{param:?} {gives:?} {value:?}");
    }
    Ok(())
}

/// A function without parameters and result.
fn plain_function(
    alloc: Global,
    name: &str,
    size: Option<[u32; 3]>,
    body: Items<CoreStatement>,
) -> Result<CoreFunction, AllocError> {
    Ok(CoreFunction {
        name: Name::from_text(alloc, name)?,
        place: NOWHERE,
        params: Items::new(alloc),
        locals: Items::new(alloc),
        result: None,
        entry: size,
        body,
    })
}

const ONE_LANE: Option<[u32; 3]> = Some([1, 1, 1]);

/// An entry that calls a function of this size.
fn calling(alloc: Global, size: Option<[u32; 3]>) -> Result<CoreModule, Fail> {
    let call = Act::Call {
        function: 1,
        args: Items::new(alloc),
    };
    let mut body = only(alloc, statement(0, call))?;
    add_return(&mut body, 1)?;
    let mut functions = Items::new(alloc);
    functions.push(plain_function(alloc, "main", ONE_LANE, body)?)?;
    let mut called = Items::new(alloc);
    add_return(&mut called, 0)?;
    functions.push(plain_function(alloc, "called", size, called)?)?;
    Ok(CoreModule {
        types: types(alloc)?,
        roots: Items::new(alloc),
        functions,
    })
}

#[test]
fn no_entry_is_called(rt: HostRuntime) -> Result<(), Fail> {
    let alloc = rt.alloc();
    assert!(rt; is_shaped(alloc, calling(alloc, None)?)?);
    assert!(rt; !is_shaped(alloc, calling(alloc, ONE_LANE)?)?);
    Ok(())
}

/// `i32`, `array<i32>`, and `u32` or not.
fn signed_types(alloc: Global, has_unsigned: bool) -> Result<TypeTable, Fail> {
    let mut table = TypeTable::new(alloc);
    let signed = table.add(ShadeType::Plain(Scalar::I32))?;
    let _ = table.add(ShadeType::RuntimeArray(signed))?;
    if has_unsigned {
        let _ = table.add(ShadeType::Plain(Scalar::U32))?;
    }
    Ok(table)
}

/// An entry that asks the length of an `array<i32>`.
fn measuring(alloc: Global, has_unsigned: bool) -> Result<CoreModule, Fail> {
    let view = view(alloc, Base::Module(0), None)?;
    let mut body = only(alloc, statement(0, Act::Length { view }))?;
    add_return(&mut body, 1)?;
    let mut functions = Items::new(alloc);
    functions.push(plain_function(alloc, "main", ONE_LANE, body)?)?;
    let mut roots = Items::new(alloc);
    roots.push(root(alloc, "list", Space::Storage, Access::Read, TypeId(1))?)?;
    Ok(CoreModule {
        types: signed_types(alloc, has_unsigned)?,
        roots,
        functions,
    })
}

#[test]
fn lengths_are_unsigned(rt: HostRuntime) -> Result<(), Fail> {
    let alloc = rt.alloc();
    assert!(rt; is_shaped(alloc, measuring(alloc, true)?)?);
    assert!(rt; !is_shaped(alloc, measuring(alloc, false)?)?);
    Ok(())
}

/// Which value of a loop's body is named behind it.
#[derive(Clone, Copy, Debug)]
enum Loops {
    /// `loop { b = i < 1; if (true) { continue; } continuing { break if b; } }`
    LeftByKept,
    /// `loop { if (true) { continue; } b = i < 1; continuing { break if b; } }`
    LeftBySkipped,
    /// `loop { loop { if (true) { continue; } .. } x; continuing { x = t; .. } }`: the Continue is one of the inner loop.
    InnerContinue,
}

fn left_by_kept(alloc: Global, body: &mut Items<CoreStatement>) -> Result<(), AllocError> {
    let mut inner = Items::new(alloc);
    compare(alloc, &mut inner, 1, Op::Less, 1)?;
    add_skip(alloc, &mut inner, 2)?;
    add_loop(body, 0, inner, Items::new(alloc), Given::Temp(1))?;
    add_return(body, 4)
}

fn left_by_skipped(alloc: Global, body: &mut Items<CoreStatement>) -> Result<(), AllocError> {
    let mut inner = Items::new(alloc);
    add_skip(alloc, &mut inner, 1)?;
    compare(alloc, &mut inner, 3, Op::Less, 1)?;
    add_loop(body, 0, inner, Items::new(alloc), Given::Temp(3))?;
    add_return(body, 4)
}

fn inner_continue(alloc: Global, body: &mut Items<CoreStatement>) -> Result<(), AllocError> {
    let mut innermost = Items::new(alloc);
    add_skip(alloc, &mut innermost, 2)?;
    let mut inner = Items::new(alloc);
    add_loop(&mut inner, 1, innermost, Items::new(alloc), TRUTH)?;
    add_load(alloc, &mut inner, 4)?;
    let mut continuing = Items::new(alloc);
    add_store(alloc, &mut continuing, 5, 4)?;
    add_loop(body, 0, inner, continuing, TRUTH)?;
    add_return(body, 6)
}

fn looping(alloc: Global, loops: Loops) -> Result<CoreModule, Fail> {
    let mut body = Items::new(alloc);
    match loops {
        Loops::LeftByKept => left_by_kept(alloc, &mut body)?,
        Loops::LeftBySkipped => left_by_skipped(alloc, &mut body)?,
        Loops::InnerContinue => inner_continue(alloc, &mut body)?,
    }
    module_of(alloc, body)
}

const LOOPS: &[(Loops, bool)] = &[
    (Loops::LeftByKept, true),
    (Loops::LeftBySkipped, false),
    (Loops::InnerContinue, true),
];

#[test]
fn values_that_loops_name(rt: HostRuntime) -> Result<(), Fail> {
    let alloc = rt.alloc();
    for (loops, expected) in LOOPS {
        let found = is_shaped(alloc, looping(alloc, *loops)?)?;
        assert_eq!(rt; found, *expected, "{loops:?}");
    }
    Ok(())
}

const STANDS: &[BarrierAt] = &[BarrierAt::Within, BarrierAt::After];

#[test]
fn samples_have_the_shape(rt: HostRuntime) -> Result<(), Fail> {
    let alloc = rt.alloc();
    for stands in STANDS {
        let sample = branching(alloc, Op::Less, Severity::Warning, *stands)?;
        assert_eq!(rt; is_shaped(alloc, sample)?, true, "{stands:?}");
    }
    Ok(())
}
