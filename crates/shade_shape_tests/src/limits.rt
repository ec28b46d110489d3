//! The limits of modules, each at it and one past it.

ghost use Rattle.std.specs.Prelude.{◌<◌, IsTrue};
ghost use Rattle.shade_values.specs.Sound.{AreKnown};

use shade_base::Severity;
use shade_core::{
    Act, Base, CoreFunction, CoreModule, CoreParam, CoreStatement, Functions, Root, View,
};
use shade_samples::{NOWHERE, only, statement};
use shade_values::{Access, Name, Scalar, ShadeType, Space, TypeId, TypeTable};
use shade_whole::check_shape;
use sqlite_items::Items;
use std::alloc::{AllocError, Global};
use std::test::Fail;

const U: TypeId = TypeId(0);

const WORDS: TypeId = TypeId(1);

/// A call of the function with a number.
fn call(alloc: Global, function: u32) -> Act {
    Act::Call {
        function,
        args: Items::new(alloc),
    }
}

/// The loop with this body and number.
fn around(
    alloc: Global,
    body: Items<CoreStatement>,
    number: u32,
) -> Result<Items<CoreStatement>, AllocError> {
    let act = Act::Loop {
        body,
        continuing: Items::new(alloc),
        leave: None,
    };
    only(alloc, statement(number, act))
}

/// The statement with so many loops around it, which is numbered behind them.
fn looped(alloc: Global, act: Act, loops: u32) -> Result<Items<CoreStatement>, AllocError> {
    let mut list = only(alloc, statement(loops, act))?;
    for depth in 0..loops {
        list = around(alloc, list, loops - 1 - depth)?;
    }
    list.push(statement(loops.saturating_add(1), Act::Return { value: None }))?;
    Ok(list)
}

/// The name of a function of a chain: one letter more than its number.
fn letters(alloc: Global, number: u32) -> Result<Name, AllocError> {
    let count = (number as usize).saturating_add(1);
    Ok(Name::from_vec(vec![in alloc; 102; count]?))
}

/// A function with this body, an entry or not.
fn function(
    alloc: Global,
    number: u32,
    is_entry: bool,
    body: Items<CoreStatement>,
) -> Result<CoreFunction, AllocError> {
    Ok(CoreFunction {
        name: letters(alloc, number)?,
        place: NOWHERE,
        params: Items::new(alloc),
        locals: Items::new(alloc),
        result: None,
        entry: if is_entry { Some([1, 1, 1]) } else { None },
        body,
    })
}

/// What a module has much of.
#[derive(Clone, Copy, Debug)]
enum Much {
    Params(u32),
    /// Members of a struct.
    Members(u32),
    /// Words of a variable.
    Variable(Space, u32),
    /// Words of a local.
    Local(u32),
    /// Loads of a local of 2,048 words.
    Loads(u32),
    /// Functions of a chain of calls, loops around each call, and the function that the last one calls.
    Chain(u32, u32, Option<u32>),
}

fn words_of(much: Much) -> u32
    ensures { 0 < result }
{
    match much {
        Much::Variable(_, words) | Much::Local(words) => words.max(1),
        _ => 2048,
    }
}

fn are_known(members: &[(Name, TypeId)], count: u32) -> bool
    ensures { IsTrue result → AreKnown count members.now }
{
    members.iter().all(|(_, id)| id.0 < count)
}

/// Adds a struct of so many words.
fn add_struct(alloc: Global, table: &mut TypeTable, count: u32) -> Result<(), Fail> {
    let mut members = Vec::new(alloc);
    for number in 0..count {
        members.push((letters(alloc, number)?, U))?;
    }
    let known = table.count();
    if members.is_empty() || known == u32::MAX || !are_known(members.as_slice(), known) {
        return Ok(());
    }
    let _ = table.add_struct("Wide", members.as_slice())?;
    Ok(())
}

/// `u32`, the array of so many words, and a struct where it is asked for.
fn types(alloc: Global, much: Much) -> Result<TypeTable, Fail> {
    let mut table = TypeTable::new(alloc);
    let word = table.add(ShadeType::Plain(Scalar::U32))?;
    let _ = table.add(ShadeType::Array(word, words_of(much)))?;
    if let Much::Members(count) = much {
        add_struct(alloc, &mut table, count)?;
    }
    Ok(table)
}

fn empty(alloc: Global) -> Result<Items<CoreStatement>, AllocError> {
    only(alloc, statement(0, Act::Return { value: None }))
}

fn alone(alloc: Global, function: CoreFunction) -> Result<Functions, AllocError> {
    let mut functions = Items::new(alloc);
    functions.push(function)?;
    Ok(functions)
}

/// A function of so many parameters.
fn with_params(alloc: Global, count: u32) -> Result<Functions, AllocError> {
    let mut params = Items::new(alloc);
    for _ in 0..count {
        params.push(CoreParam::Plain(U))?;
    }
    let mut many = function(alloc, 0, false, empty(alloc)?)?;
    many.params = params;
    alone(alloc, many)
}

/// A local of words, loaded so often.
fn loads(alloc: Global, count: u32) -> Result<Items<CoreStatement>, AllocError> {
    let mut body = Items::new(alloc);
    for number in 0..count {
        let view = View {
            base: Base::Local(0),
            steps: Items::new(alloc),
        };
        body.push(statement(number, Act::Load { view }))?;
    }
    body.push(statement(count, Act::Return { value: None }))?;
    Ok(body)
}

/// An entry that loads its local so often.
fn with_loads(alloc: Global, count: u32) -> Result<Functions, AllocError> {
    let mut locals = Items::new(alloc);
    locals.push(WORDS)?;
    let mut entry = function(alloc, 0, true, loads(alloc, count)?)?;
    entry.locals = locals;
    alone(alloc, entry)
}

/// What the last function of a chain does.
fn last_act(alloc: Global, back: Option<u32>) -> Act {
    match back {
        Some(number) => call(alloc, number),
        None => Act::Barrier {
            space: Space::Workgroup,
            severity: Severity::Warning,
        },
    }
}

/// Adds a function of a chain, which does this within so many loops.
fn add_link(
    alloc: Global,
    functions: &mut Functions,
    number: u32,
    act: Act,
    loops: u32,
) -> Result<(), AllocError> {
    let body = looped(alloc, act, loops)?;
    functions.push(function(alloc, number, number == 1, body)?)
}

/// An entry that calls the next function, and so on, to one that comes to a barrier or calls this function.
fn chain(
    alloc: Global,
    count: u32,
    loops: u32,
    back: Option<u32>,
) -> Result<Functions, AllocError> {
    let mut functions = Items::new(alloc);
    for number in 1..count {
        add_link(alloc, &mut functions, number, call(alloc, number), loops)?;
    }
    add_link(alloc, &mut functions, count, last_act(alloc, back), loops)?;
    Ok(functions)
}

fn variable(alloc: Global, space: Space) -> Result<Root, AllocError> {
    Ok(Root {
        name: Name::from_text(alloc, "v")?,
        space,
        access: Access::ReadWrite,
        ty: WORDS,
        initial: None,
    })
}

fn roots_of(alloc: Global, much: Much) -> Result<Items<Root>, AllocError> {
    let mut roots = Items::new(alloc);
    if let Much::Variable(space, _) = much {
        roots.push(variable(alloc, space)?)?;
    }
    Ok(roots)
}

fn functions_of(alloc: Global, much: Much) -> Result<Functions, AllocError> {
    match much {
        Much::Params(count) => with_params(alloc, count),
        Much::Members(_) | Much::Variable(_, _) => Ok(Items::new(alloc)),
        Much::Local(_) => with_loads(alloc, 0),
        Much::Loads(count) => with_loads(alloc, count),
        Much::Chain(count, loops, back) => chain(alloc, count, loops, back),
    }
}

fn module_of(alloc: Global, much: Much) -> Result<CoreModule, Fail> {
    let functions = functions_of(alloc, much)?;
    let roots = roots_of(alloc, much)?;
    Ok(CoreModule {
        types: types(alloc, much)?,
        roots,
        functions,
    })
}

/// What the test says of a module.
fn is_shaped(alloc: Global, module: CoreModule) -> Result<bool, AllocError> {
    check_shape(alloc, &module)
}

const LIMITS: &[(Much, bool)] = &[
    (Much::Params(255), true),
    (Much::Params(256), false),
    (Much::Members(1_023), true),
    (Much::Members(1_024), false),
    (Much::Variable(Space::Workgroup, 4_096), true),
    (Much::Variable(Space::Workgroup, 4_097), false),
    (Much::Variable(Space::Private, 2_048), true),
    (Much::Variable(Space::Private, 2_049), false),
    (Much::Local(2_048), true),
    (Much::Local(2_049), false),
    (Much::Loads(31), true),
    (Much::Loads(32), false),
    (Much::Chain(32, 0, None), true),
    (Much::Chain(33, 0, None), false),
    (Much::Chain(1, 125, None), true),
    (Much::Chain(1, 126, None), false),
    (Much::Chain(1, 300, None), false),
    (Much::Chain(2, 61, None), true),
    (Much::Chain(2, 62, None), false),
    (Much::Chain(32, 1, None), true),
    (Much::Chain(32, 2, None), false),
    (Much::Chain(1, 0, Some(0)), false),
    (Much::Chain(3, 0, Some(1)), false),
    (Much::Chain(3, 0, Some(2)), false),
    (Much::Chain(3, 0, Some(3)), false),
];

#[test]
fn limits_of_modules(rt: HostRuntime) -> Result<(), Fail> {
    let alloc = rt.alloc();
    for (much, expected) in LIMITS {
        let found = is_shaped(alloc, module_of(alloc, *much)?)?;
        assert_eq!(rt; found, *expected, "{much:?}");
    }
    Ok(())
}
