//! Makes the core module of a tree.

ghost use Rattle.std.specs.Prelude.{◌≡◌, ◌+◌, ◌-◌, ◌^◌, ◌<◌, ◌∷◌, [], Contains, IfOk, OnOk, IsErr, length};
ghost use Rattle.shade_values.specs.Table.{with_type};
ghost use Rattle.shade_first.specs.Lowering as rows;
ghost use Rattle.shade_first.specs.Lowering.{Adds, Ends, Lowers, Stands, count_all, count_of, function_with, type_table};

use crate::tree::{FirstItem, FirstShader};
use shade_base::{Place, Severity};
use shade_core::{
    Act, BuiltinInput, CoreFunction, CoreModule, CoreParam, CoreStatement, Operand, Statements,
};
use shade_values::{Leaf, Op, Scalar, ShadeType, Space, TypeId, TypeTable, Value};
use sqlite_items::Items;
use std::alloc::{AllocError, Global};

// The table of types begins with it.
const U32: TypeId = TypeId(0);

/// Makes the core module of a shader.
pub fn lower(alloc: Global, shader: FirstShader) -> Result<CoreModule, AllocError>
    requires { count_all shader.items < 2 ^ 32 - 1 }
    ensures { IfOk result (λ m. Stands shader m) }
{
    match body(alloc, &shader.items, shader.end) {
        Ok(body) => module(alloc, function(alloc, shader, body)?),
        Err(fault) => refuse(fault, shader),
    }
}

// Refuses, and lets go of what was made before.
fn refuse<T: Drop, H: Drop>(fault: AllocError, held: H) -> Result<T, AllocError>
    ensures { IsErr result }
{
    Err(fault)
}

// The list of one item.
fn only<T: Drop>(alloc: Global, item: T) -> Result<Items<T>, AllocError>
    ensures { IfOk result (λ list. list ≡ item ∷ []) }
{
    let mut list = Items::new(alloc);
    list.push(item)?;
    Ok(list)
}

// The statements of a shader's items, and its last return.
fn body(alloc: Global, items: &Items<FirstItem>, end: Place) -> Result<Statements, AllocError>
    requires { count_all items.now < 2 ^ 32 - 1 }
    ensures { IfOk result (λ list. Ends items.now end list) }
{
    let (mut list, next) = statements(alloc, items, 0)?;
    list.push(last_return(next, end))?;
    Ok(list)
}

// The function of a shader, with this body.
fn function(
    alloc: Global,
    shader: FirstShader,
    body: Statements,
) -> Result<CoreFunction, AllocError>
    ensures { IfOk result (λ f. f ≡ function_with shader body) }
{
    match only(alloc, CoreParam::Input(BuiltinInput::LocalIndex)) {
        Ok(params) => Ok(CoreFunction {
            name: shader.name,
            place: shader.place,
            params,
            locals: Items::new(alloc),
            result: None,
            entry: Some([shader.size, 1, 1]),
            body,
        }),
        Err(fault) => refuse(fault, (shader, body)),
    }
}

// The module of one function.
fn module(alloc: Global, function: CoreFunction) -> Result<CoreModule, AllocError>
    ensures types { IfOk result (λ m. m.types ≡ type_table) }
    ensures roots { IfOk result (λ m. m.roots ≡ []) }
    ensures functions { IfOk result (λ m. m.functions ≡ function ∷ []) }
{
    let functions = only(alloc, function)?;
    match types(alloc) {
        Ok(types) => Ok(CoreModule {
            types,
            roots: Items::new(alloc),
            functions,
        }),
        Err(fault) => refuse(fault, functions),
    }
}

fn types(alloc: Global) -> Result<TypeTable, AllocError>
    ensures { IfOk result (λ t. t ≡ type_table) }
{
    let mut types = TypeTable::new(alloc);
    add(&mut types, Scalar::U32)?;
    add(&mut types, Scalar::Bool)?;
    Ok(types)
}

// Adds a scalar type that the table has not.
fn add(types: &mut TypeTable, scalar: Scalar) -> Result<(), AllocError>
    requires short { length types.old.types < 2 }
    requires absent { ¬ Contains types.old.types (ShadeType.Plain scalar) }
    ensures { OnOk result (types.new ≡ with_type types.old (ShadeType.Plain scalar)) }
{
    match types.add(ShadeType::Plain(scalar)) {
        Ok(_) => Ok(()),
        Err(_) => Err(AllocError),
    }
}

// Makes the statements of items, numbered from a number on, and says which number comes next.
#[cycle(statements)]
fn statements(
    alloc: Global,
    items: &Items<FirstItem>,
    number: u32,
) -> Result<(Statements, u32), AllocError>
    requires { number + count_all items.now < 2 ^ 32 }
    ensures { IfOk result (λ r. Lowers items.now number r.0 r.1) }
{
    let mut made = Items::new(alloc);
    let mut next = number;
    'items: for item in items.as_slice() {
        next = add_item(alloc, item, next, &mut made)?;
    }
    Ok((made, next))
}

// Adds the statements of an item, numbered from a number on, and says which number comes next.
#[cycle(statements)]
fn add_item(
    alloc: Global,
    item: &FirstItem,
    number: u32,
    made: &mut Statements,
) -> Result<u32, AllocError>
    requires { number + count_of item.now < 2 ^ 32 }
    ensures { IfOk result (λ next. Adds item.now number made.old made.new next) }
{
    match item {
        FirstItem::Barrier(place) => {
            made.push(barrier(number, *place))?;
            Ok(number + 1)
        }
        FirstItem::If {
            place,
            operator,
            limit,
            items,
        } => {
            made.push(condition(alloc, number, *operator, *limit)?)?;
            let (body, next) = statements(alloc, items, number + 2)?;
            made.push(branch(alloc, number + 1, *place, number, body))?;
            Ok(next)
        }
    }
}

// The comparison of the parameter with a limit.
fn condition(
    alloc: Global,
    number: u32,
    place: Place,
    limit: u32,
) -> Result<CoreStatement, AllocError>
    ensures { IfOk result (λ s. s ≡ rows.condition number place limit) }
{
    let leaf = Leaf {
        scalar: Scalar::U32,
        number: i64::from(limit),
    };
    let mut args = Items::new(alloc);
    args.push(Operand::Param(0))?;
    args.push(Operand::Constant(U32, Value::One(leaf)))?;
    Ok(CoreStatement {
        number,
        place,
        act: Act::Set { op: Op::Less, args },
    })
}

// The branch on a value.
fn branch(alloc: Global, number: u32, place: Place, value: u32, body: Statements) -> CoreStatement
    ensures { result ≡ rows.branch number place value body }
{
    CoreStatement {
        number,
        place,
        act: Act::If {
            cond: Operand::Temp(value),
            yes: body,
            no: Items::new(alloc),
        },
    }
}

fn barrier(number: u32, place: Place) -> CoreStatement
    ensures { result ≡ rows.barrier number place }
{
    CoreStatement {
        number,
        place,
        act: Act::Barrier {
            space: Space::Workgroup,
            severity: Severity::Error,
        },
    }
}

fn last_return(number: u32, place: Place) -> CoreStatement
    ensures { result ≡ rows.last_return number place }
{
    CoreStatement {
        number,
        place,
        act: Act::Return { value: None },
    }
}
