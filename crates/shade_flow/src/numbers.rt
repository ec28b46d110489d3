//! Points by number.

ghost use Rattle.std.specs.Prelude.{◌≡◌, ◌<◌, ◌≤◌, ◌-◌, ◌^◌, All, IfOk, map, true};
ghost use Rattle.shade_flow.specs.Counted.{point_counted, step_counted};
ghost use Rattle.shade_flow.specs.Tables.{number, numbers, IsBelow, Joins};

use crate::Point;
use std::alloc::{AllocError, Global};

/// Gives the number of a point.
pub fn number_of(point: Point) -> u64
    ensures { result ≡ number point }
{
    match point {
        Point::Past => 0,
        Point::At(statement) => 2 * (statement as u64) + 1,
        Point::Turn(statement) => 2 * (statement as u64) + 2,
    }
}

/// Gives the number of a point as that of a node.
pub fn node_of(point: Point) -> u32
    requires { point_counted point ≡ true }
    ensures { result ≡ number point }
{
    number_of(point) as u32
}

/// One way as an edge between numbers.
fn edge_of(step: (Point, Point)) -> (u32, u32)
    requires { step_counted step ≡ true }
    ensures { result ≡ numbers step }
{
    (node_of(step.0), node_of(step.1))
}

/// The ways of a function as edges between numbers.
pub fn numbered(alloc: Global, steps: &[(Point, Point)]) -> Result<Vec<(u32, u32)>, AllocError>
    requires { All (λ step. step_counted step ≡ true) steps.now }
    ensures { IfOk result (λ edges. edges.items ≡ map numbers steps.now) }
{
    let mut edges = Vec::with_capacity(alloc, steps.len())?;
    for step in steps {
        edges.push(edge_of(*step))?;
    }
    Ok(edges)
}

/// The greater of a count and the count of the numbers up to one.
fn above(count: u32, number: u32) -> u32
    requires { number < 2 ^ 32 - 1 }
    ensures count { count ≤ result }
    ensures number { number < result }
{
    count.max(number + 1)
}

/// A count of nodes above one number and above all ends of some edges.
pub fn node_count(edges: &[(u32, u32)], first: u32) -> u32
    requires first { first < 2 ^ 32 - 1 }
    requires edges { All IsBelow edges.now }
    ensures first { first < result }
    ensures edges { All (Joins result) edges.now }
{
    let mut count = above(0, first);
    for edge in edges {
        count = above(count, edge.0);
        count = above(count, edge.1);
    }
    count
}
