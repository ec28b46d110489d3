//! Aliases in a module.

ghost use Rattle.std.specs.Prelude.{◌≡◌, ◌<◌, ◌^◌, All, IfErr, IfOk, Some, length, map, slice_get, slice_set, true};
ghost use Rattle.std.specs.List.{list_all};
ghost use Rattle.shade_core.specs.Code.{code_of};
ghost use Rattle.shade_core.specs.Places.{list_places};
ghost use Rattle.shade_core.specs.Standing.{by_itself, head_of, statements};
ghost use Rattle.shade_chains.specs.Keeps.{MakeNoCycle};
ghost use Rattle.shade_chains.specs.Orders.{IsOrder};
ghost use Rattle.shade_chains.specs.Tops.{rows_in};
ghost use Rattle.shade_rules.specs.Aliases.{AreFree, IsRefused};
ghost use Rattle.shade_rules.specs.Few.{calls_take_few, takes_few};
ghost use Rattle.shade_rules.specs.Gathered.{AreUsages, IsUnknown};
ghost use Rattle.shade_rules.specs.Found.{IsAliasIn, IsFirstCall, IsFoundIn};
ghost use Rattle.shade_rules.specs.Scans.{IsFirstAmong, KnownAt};

use crate::aliasing::{AliasFault, AliasPair, first_alias};
use crate::gather::row_of_function;
use crate::statements::{Around, add_list};
use crate::usage::Row;
use shade_base::Place;
use shade_chains::{order_of_calls, rows_of};
use shade_core::{Act, Argument, CoreFunction, CoreModule, CoreStatement};
use shade_shape::statements_of;
use std::alloc::{AllocError, Global};

/// A row for each function, of which nothing is known.
#[tactic(auto, using(crate::proofs::RowLaws::unknown_first, crate::proofs::RowLaws::unknown_more, crate::proofs::RowLaws::unknown_all))]
fn empty_rows(alloc: Global, count: usize) -> Result<Vec<Row>, AllocError>
    ensures { IfOk result (λ rows. IsUnknown count rows.items) }
{
    let mut rows = Vec::with_capacity(alloc, count)?;
    for _ in 0..count {
        rows.push(Row::new(alloc))?;
    }
    Ok(rows)
}

/// Puts what a function uses in the place of its number.
fn set_row(rows: &mut Vec<Row>, place: usize, row: Row)
    requires { place < length rows.old.items }
    ensures { rows.new.items ≡ slice_set rows.old.items place row }
{
    rows[place] = row;
}

/// What each function uses, from an order in which each stands behind those that it calls.
#[tactic(auto, using(crate::proofs::RowLaws::gathered_first, crate::proofs::RowLaws::function_within, crate::proofs::RowLaws::row_within))]
fn usages(alloc: Global, functions: &[CoreFunction], order: &[u32]) -> Result<Vec<Row>, AllocError>
    requires ordered { IsOrder (rows_in functions.now) order.now }
    requires few { list_all calls_take_few functions.now ≡ true }
    ensures { IfOk result (λ rows. AreUsages functions.now rows.items) }
{
    let mut rows = empty_rows(alloc, functions.len())?;
    'functions: for number in order {
        let place = *number as usize;
        let row = row_of_function(alloc, &rows, &functions[place])?;
        set_row(&mut rows, place, row);
    }
    Ok(rows)
}

/// The first alias of a call. Of a callee that is not there nothing is known.
fn alias_of_call(rows: &[Row], function: u32, args: &[Argument]) -> Option<AliasPair>
    requires { length args.now < 2 ^ 32 }
    ensures { IsFirstAmong (KnownAt rows.now function) args.now result }
{
    let row = rows.get(function as usize)?;
    first_alias(row, args)
}

/// The first alias of a statement.
fn alias_of(rows: &[Row], act: &Act) -> Option<AliasPair>
    requires { takes_few (head_of act.now) ≡ true }
    ensures { IsAliasIn rows.now (head_of act.now) result }
{
    match act {
        Act::Call { function, args } => alias_of_call(rows, *function, args.as_slice()),
        _ => None,
    }
}

/// The place of the statement that stands at a place of the statements of a function in structure order.
fn place_at(alloc: Global, function: &CoreFunction, number: usize) -> Result<Place, AllocError>
    requires { number < length (statements (code_of function.now.body)) }
    ensures { IfOk result (λ place. slice_get (list_places function.now.body) number ≡ Some place) }
{
    let mut found = Vec::new(alloc);
    add_list(&mut found, Around::NOTHING, &function.body)?;
    Ok(found[number].place)
}

/// A call with an alias, by its place among the statements of its function.
#[derive(Clone, Copy, Debug, PartialEq, Eq)]
pub struct CallAlias {
    pub call: usize,
    pub pair: AliasPair,
}

/// The first call of a list with an alias.
fn first_call(rows: &[Row], listed: &[&CoreStatement]) -> Option<CallAlias>
    requires { list_all (λ s. takes_few s.head) (map (λ s. by_itself s.now) listed.now) ≡ true }
    ensures { IsFirstCall rows.now (map (λ s. by_itself s.now) listed.now) result }
{
    let mut call: usize = 0;
    'listed: for statement in listed {
        if let Some(pair) = alias_of(rows, &statement.act) {
            return Some(CallAlias { call, pair });
        }
        call += 1;
    }
    None
}

/// The first alias of a function, by what its callees use.
fn first_in(
    alloc: Global,
    rows: &[Row],
    function: &CoreFunction,
) -> Result<Option<AliasFault>, AllocError>
    requires { calls_take_few function.now ≡ true }
    ensures { IfOk result (IsFoundIn rows.now function.now) }
{
    let listed = statements_of(alloc, &function.body)?;
    let Some(found) = first_call(rows, &listed) else {
        return Ok(None);
    };
    let place = place_at(alloc, function, found.call)?;
    Ok(Some(AliasFault::Alias {
        place,
        first: found.pair.first,
        second: found.pair.second,
    }))
}

/// Refuses the first call of a module by which one variable is reached in two ways, of which the callee writes by one and reads or
/// writes by the other: by two arguments, or by an argument and as a variable of the module that it uses. Functions are taken in the
/// order of the text, of each its statements in structure order, of a call the arguments in their order, and of one argument later
/// arguments before the variable.
///
/// The fault tells the place of the call, the number of the argument, and that of the other argument or of the variable. Takes time in
/// the order of the statements, of the pairs of arguments of each call, and for each call of the words of its callee, of which one has
/// 64 variables. Takes memory for each call, for what is found of each statement of one function at a time, and for each function two
/// bits for each parameter up to the last one that it uses, and two for each variable of the module up to the last one. Without it the
/// answer is `NoMemory`.
pub fn aliases(alloc: Global, checked: &CoreModule) -> Result<(), AliasFault>
    requires few { length checked.now.functions < 2 ^ 32 }
    requires few_arguments { list_all calls_take_few checked.now.functions ≡ true }
    requires acyclic { MakeNoCycle checked.now }
    ensures accepted { IfOk result (λ _. All (AreFree checked.now.functions) checked.now.functions) }
    ensures refused { IfErr result (IsRefused checked.now.functions) }
{
    let functions = checked.functions.as_slice();
    let events = rows_of(alloc, functions)?;
    let Some(order) = order_of_calls(alloc, checked, &events)? else {
        unreachable!();
    };
    let rows = usages(alloc, functions, &order)?;
    let uses = rows.as_slice();
    'functions: for function in functions {
        let found = first_in(alloc, uses, function)?;
        if let Some(fault) = found {
            return Err(fault);
        }
    }
    Ok(())
}
