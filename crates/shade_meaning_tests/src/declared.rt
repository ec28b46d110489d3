//! The order in which declarations are taken, by what each names.

use shade_declared::order;
use sqlite_items::Items;
use std::alloc::{AllocError, Global};
use std::test::Fail;

/// Of each declaration those that it names, and the order.
type Row = (&'static [&'static [usize]], &'static [usize]);

const ORDERS: &[Row] = &[
    (&[], &[]),
    (&[&[], &[]], &[0, 1]),
    (&[&[1], &[]], &[1, 0]),
    (&[&[2, 1], &[2], &[]], &[2, 1, 0]),
    (&[&[1, 2], &[], &[], &[0]], &[1, 2, 0, 3]),
    // a cycle, which no tree has by then
    (&[&[1], &[0]], &[1, 0]),
    // a number of no declaration
    (&[&[5, 1], &[]], &[1, 0]),
];

fn items_of(alloc: Global, numbers: &[usize]) -> Result<Items<usize>, AllocError> {
    let mut items = Items::new(alloc);
    for number in numbers {
        items.push(*number)?;
    }
    Ok(items)
}

fn is_order(alloc: Global, named: &[&[usize]], wanted: &[usize]) -> Result<bool, AllocError> {
    let mut lists = Vec::new(alloc);
    for names in named {
        lists.push(items_of(alloc, names)?)?;
    }
    let order = order(alloc, &lists)?;
    Ok(order.as_slice() == wanted)
}

#[test]
fn orders(rt: HostRuntime) -> Result<(), Fail> {
    let alloc = rt.alloc();
    for (named, wanted) in ORDERS {
        assert!(rt; is_order(alloc, named, wanted)?);
    }
    Ok(())
}
