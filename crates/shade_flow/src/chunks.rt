//! The chunks of a function, searched one after another and read at a point.

ghost use Rattle.std.specs.Prelude.{◌≡◌, ◌++◌, ◌∷◌, ◌<◌, ◌≤◌, ◌&&◌, ℕ, All, IfOk, length, nat_eq, if◌then◌else◌, []};
ghost use Rattle.std.specs.Int.{bit_at};
ghost use Rattle.shade_flow.specs.Bits.{at};
ghost use Rattle.shade_flow.specs.Chosen.{one, chosen, before_of};
ghost use Rattle.shade_flow.specs.Routes.{IsJoined, IsSearched, defined_in};

use crate::chunk::Chunk;
use crate::definition::same_variable;
use crate::routes::Routes;
use crate::tables::{begun, full, made, stop_all};
use crate::work::reached;
use crate::{Defined, Definition};
use shade_core::Base;
use std::alloc::{AllocError, Global};

/// A copy of some definitions.
fn copied(alloc: Global, definitions: &[Defined]) -> Result<Vec<Defined>, AllocError>
    ensures { IfOk result (λ copy. copy.items ≡ definitions.now) }
{
    let mut copy = Vec::with_capacity(alloc, definitions.len())?;
    for defined in definitions {
        copy.push(*defined)?;
    }
    Ok(copy)
}

/// Searches where some definitions reach.
fn chunk_of(alloc: Global, routes: &Routes, definitions: &[Defined]) -> Result<Chunk, AllocError>
    requires few { length definitions.now ≤ 64 }
    requires joined { IsJoined routes.now }
    ensures definitions { IfOk result (λ chunk. chunk.definitions.items ≡ definitions.now) }
    ensures rows { IfOk result (IsSearched routes.now) }
{
    let starts = begun(alloc, routes.nodes, routes.first, definitions)?;
    let makes = made(alloc, routes.nodes, definitions)?;
    let mut passes = full(alloc, routes.nodes)?;
    stop_all(&mut passes, &routes.writes, definitions);
    let rows = reached(alloc, routes.nodes, &routes.graph, starts, &makes, &passes)?;
    Ok(Chunk {
        definitions: copied(alloc, definitions)?,
        rows,
    })
}

/// Searches where some definitions reach, 64 at a time.
pub fn chunks_of(
    alloc: Global,
    routes: &Routes,
    definitions: &[Defined],
) -> Result<Vec<Chunk>, AllocError>
    requires { IsJoined routes.now }
    ensures definitions { IfOk result (λ chunks. defined_in chunks.items ≡ definitions.now) }
    ensures rows { IfOk result (λ chunks. All (IsSearched routes.now) chunks.items) }
{
    let mut chunks = Vec::new(alloc);
    let mut rest = definitions;
    'rest: while !rest.is_empty() {
        let (now, later) = rest.split_at(rest.len().min(64));
        chunks.push(chunk_of(alloc, routes, now)?)?;
        rest = later;
    }
    Ok(chunks)
}

fn has_bit(row: u64, bit: u32) -> bool
    requires { bit < 64 }
    ensures { result ≡ nat_eq (bit_at row bit) 1 }
{
    row >> bit & 1 == 1
}

/// Adds the definition if it is one of the variable and its bit is there.
fn add_chosen(
    defined: Defined,
    variable: Base,
    row: u64,
    bit: u32,
    out: &mut Vec<Definition>,
) -> Result<(), AllocError>
    requires { bit < 64 }
    ensures { IfOk result (λ _. out.new.items ≡ out.old.items ++ one variable row bit defined) }
{
    if same_variable(defined.variable, variable) && has_bit(row, bit) {
        out.push(defined.by)?;
    }
    Ok(())
}

/// Adds those of some definitions that are of a variable and whose bit is there.
fn add_row(
    definitions: &[Defined],
    variable: Base,
    row: u64,
    out: &mut Vec<Definition>,
) -> Result<(), AllocError>
    requires { length definitions.now ≤ 64 }
    ensures { IfOk result (λ _. out.new.items ≡ out.old.items ++ chosen variable row 0 definitions.now) }
{
    let mut bit = 0;
    for defined in definitions {
        add_chosen(*defined, variable, row, bit, out)?;
        bit += 1;
    }
    Ok(())
}

/// The row of a point; none has a bit beyond the last row.
fn row_at(rows: &[u64], point: u64) -> u64
    ensures { result ≡ at rows.now point }
{
    if point < rows.len() as u64 {
        rows[point as usize]
    } else {
        0
    }
}

/// The definitions of a variable that reach a point, in the order of the chunks.
pub fn definitions_before(
    alloc: Global,
    chunks: &[Chunk],
    point: u64,
    variable: Base,
) -> Result<Vec<Definition>, AllocError>
    ensures { IfOk result (λ found. found.items ≡ before_of point variable chunks.now) }
{
    let mut found = Vec::new(alloc);
    for chunk in chunks {
        let row = row_at(&chunk.rows, point);
        add_row(&chunk.definitions, variable, row, &mut found)?;
    }
    Ok(found)
}
