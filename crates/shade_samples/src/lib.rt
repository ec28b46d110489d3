//! Core modules by hand: one entry of two lanes, with comparisons of the lane's index, branches and barriers. Tests of
//! several crates stand on them.
#![tactic(auto)]

ghost use Rattle.std.specs.Prelude.{◌≡◌, [], true, is_some, ◌<◌, length, IfOk};
ghost use Rattle.shade_mem.specs.Inputs.{size_of};

use shade_base::{Place, Severity};
use shade_core::{Act, BuiltinInput, CoreFunction, CoreModule, CoreParam, CoreStatement, Operand};
use shade_values::{Leaf, Name, Op, Scalar, ShadeType, Space, TypeId, TypeTable, Value};
use sqlite_items::Items;
use std::alloc::{AllocError, Global};
use std::test::Fail;

pub const NOWHERE: Place = Place {
    offset: 0,
    line: 1,
    column: 1,
};

/// Where the barrier of a body with one branch stands.
#[derive(Clone, Copy, Debug)]
pub enum BarrierAt {
    /// `if (i < 1u) { } workgroupBarrier();`
    After,
    /// `if (i < 1u) { workgroupBarrier(); }`, which the first lane alone comes to.
    Within,
}

pub fn statement(number: u32, act: Act) -> CoreStatement {
    CoreStatement {
        number,
        place: NOWHERE,
        act,
    }
}

/// A barrier of the workgroup's memory.
pub fn barrier(number: u32, severity: Severity) -> CoreStatement {
    let act = Act::Barrier {
        space: Space::Workgroup,
        severity,
    };
    statement(number, act)
}

/// Adds the comparison of the index with a number.
pub fn compare(
    alloc: Global,
    body: &mut Items<CoreStatement>,
    number: u32,
    op: Op,
    limit: u32,
) -> Result<(), AllocError> {
    let mut args = Items::new(alloc);
    args.push(Operand::Param(0))?;
    args.push(Operand::Constant(TypeId(0), word(limit)))?;
    body.push(statement(number, Act::Set { op, args }))
}

fn word(number: u32) -> Value {
    Value::One(Leaf {
        scalar: Scalar::U32,
        number: i64::from(number),
    })
}

/// Adds a branch on the comparison before it, with these statements in its first part.
pub fn branch(
    alloc: Global,
    body: &mut Items<CoreStatement>,
    number: u32,
    yes: Items<CoreStatement>,
) -> Result<(), AllocError> {
    let cond = Operand::Temp(number.saturating_sub(1));
    let no = Items::new(alloc);
    body.push(statement(number, Act::If { cond, yes, no }))
}

/// The list of one statement.
pub fn only(alloc: Global, statement: CoreStatement) -> Result<Items<CoreStatement>, AllocError> {
    let mut list = Items::new(alloc);
    list.push(statement)?;
    Ok(list)
}

/// A module whose one function is an entry of two lanes: `if (i op 1u) { .. }`, one barrier, and a return.
pub fn branching(
    alloc: Global,
    op: Op,
    severity: Severity,
    stands: BarrierAt,
) -> Result<CoreModule, Fail>
    ensures roots { IfOk result (λ m. m.roots ≡ []) }
    ensures entry { IfOk result (λ m. is_some (size_of m 0) ≡ true) }
    ensures functions { IfOk result (λ m. 0 < length m.functions) }
{
    let mut body = Items::new(alloc);
    compare(alloc, &mut body, 0, op, 1)?;
    match stands {
        BarrierAt::Within => {
            let yes = only(alloc, barrier(2, severity))?;
            branch(alloc, &mut body, 1, yes)?;
        }
        BarrierAt::After => {
            branch(alloc, &mut body, 1, Items::new(alloc))?;
            body.push(barrier(2, severity))?;
        }
    }
    body.push(statement(3, Act::Return { value: None }))?;
    entry_of(alloc, body)
}

/// `u32`, of the index and of what it is compared with, and `bool`.
fn types(alloc: Global) -> Result<TypeTable, Fail> {
    let mut table = TypeTable::new(alloc);
    let _ = table.add(ShadeType::Plain(Scalar::U32))?;
    let _ = table.add(ShadeType::Plain(Scalar::Bool))?;
    Ok(table)
}

/// A module whose one function is an entry of two lanes with this body.
pub fn entry_of(alloc: Global, body: Items<CoreStatement>) -> Result<CoreModule, Fail>
    ensures roots { IfOk result (λ m. m.roots ≡ []) }
    ensures entry { IfOk result (λ m. is_some (size_of m 0) ≡ true) }
    ensures functions { IfOk result (λ m. 0 < length m.functions) }
{
    let mut params = Items::new(alloc);
    params.push(CoreParam::Input(BuiltinInput::LocalIndex))?;
    let mut functions = Items::new(alloc);
    functions.push(CoreFunction {
        name: Name::from_text(alloc, "main")?,
        place: NOWHERE,
        params,
        locals: Items::new(alloc),
        result: None,
        entry: Some([2, 1, 1]),
        body,
    })?;
    Ok(CoreModule {
        types: types(alloc)?,
        roots: Items::new(alloc),
        functions,
    })
}
