//! Demands of the shape of a module, each at its edge: tables of types, values of a type, names, variables and limits.

use shade_core::{CoreFunction, Functions, Root, Roots};
use shade_samples::NOWHERE;
use shade_shape::{Types, are_roots, functions_differ, is_table, is_value_of, roots_differ};
use shade_values::{Access, Leaf, Name, Scalar, ShadeType, Space, TypeId, TypeTable, Value};
use sqlite_items::Items;
use std::alloc::{AllocError, Global};
use std::test::Fail;

const U: ShadeType = ShadeType::Plain(Scalar::U32);

/// Adds an array of one element of the last type.
fn deepen(table: &mut TypeTable) {
    let count = table.count();
    if count == 0 || count > 1_000 {
        return;
    }
    let _ = table.add(ShadeType::Array(TypeId(count - 1), 1));
}

/// How deep arrays are nested, and whether a table may hold them.
const DEPTHS: &[(u32, bool)] = &[
    (0, true),
    (1, true),
    (255, true),
    (256, false),
    (300, false),
];

#[test]
fn nested_arrays(rt: HostRuntime) -> Result<(), Fail> {
    let alloc = rt.alloc();
    for (depth, expected) in DEPTHS {
        let mut table = TypeTable::new(alloc);
        let _ = table.add(U)?;
        for _ in 0..*depth {
            deepen(&mut table);
        }
        assert_eq!(rt; is_table(alloc, &table)?, *expected, "{depth}");
    }
    Ok(())
}

fn add_plain(table: &mut TypeTable, scalar: Scalar) {
    if table.count() < 1_000 {
        let _ = table.add(ShadeType::Plain(scalar));
    }
}

fn add_atomic(table: &mut TypeTable, scalar: Scalar) {
    if table.count() < 1_000 {
        let _ = table.add(ShadeType::Atomic(scalar));
    }
}

/// The atomics of a table, its scalars, and whether the scalar of each atomic is among them.
const ATOMICS: &[(&[Scalar], &[Scalar], bool)] = &[
    (&[], &[], true),
    (&[], &[Scalar::U32], true),
    (&[Scalar::U32], &[Scalar::U32], true),
    (&[Scalar::U32], &[], false),
    (&[Scalar::U32, Scalar::I32], &[Scalar::U32], false),
    (
        &[Scalar::U32, Scalar::I32],
        &[Scalar::U32, Scalar::I32],
        true,
    ),
    (&[Scalar::Bool], &[Scalar::U32], false),
    (&[Scalar::Abstract], &[Scalar::U32], false),
];

#[test]
fn scalars_of_atomics(rt: HostRuntime) -> Result<(), Fail> {
    let alloc = rt.alloc();
    for (atomics, scalars, expected) in ATOMICS {
        let mut table = TypeTable::new(alloc);
        for scalar in *atomics {
            add_atomic(&mut table, *scalar);
        }
        for scalar in *scalars {
            add_plain(&mut table, *scalar);
        }
        assert_eq!(rt;
            is_table(alloc, &table)?,
            *expected,
            "{atomics:?} {scalars:?}"
        );
    }
    Ok(())
}

fn function(alloc: Global, name: &str) -> Result<CoreFunction, AllocError> {
    Ok(CoreFunction {
        name: Name::from_text(alloc, name)?,
        place: NOWHERE,
        params: Items::new(alloc),
        locals: Items::new(alloc),
        result: None,
        entry: None,
        body: Items::new(alloc),
    })
}

fn functions(alloc: Global, names: &[&str]) -> Result<Functions, AllocError> {
    let mut list = Items::new(alloc);
    for name in names {
        list.push(function(alloc, name)?)?;
    }
    Ok(list)
}

fn root(alloc: Global, name: &str, initial: Option<Value>) -> Result<Root, AllocError> {
    Ok(Root {
        name: Name::from_text(alloc, name)?,
        space: Space::Private,
        access: Access::ReadWrite,
        ty: TypeId(0),
        initial,
    })
}

fn roots(alloc: Global, names: &[&str]) -> Result<Roots, AllocError> {
    let mut list = Items::new(alloc);
    for name in names {
        list.push(root(alloc, name, None)?)?;
    }
    Ok(list)
}

/// Names, and whether they differ.
const NAMES: &[(&[&str], bool)] = &[
    (&[], true),
    (&["f"], true),
    (&["f", "g"], true),
    (&["f", "f"], false),
    (&["f", "g", "f"], false),
    (&["f", "ff", "fff"], true),
    (&["", "a", ""], false),
];

#[test]
fn names_that_differ(rt: HostRuntime) -> Result<(), Fail> {
    let alloc = rt.alloc();
    for (names, expected) in NAMES {
        let functions = functions(alloc, names)?;
        assert_eq!(rt;
            functions_differ(alloc, functions.as_slice())?,
            *expected,
            "{names:?}"
        );
        let roots = roots(alloc, names)?;
        assert_eq!(rt;
            roots_differ(alloc, roots.as_slice())?,
            *expected,
            "{names:?}"
        );
    }
    Ok(())
}

/// A scalar, a first value of a private variable of type `u32`, and whether it may begin so.
const BEGINNINGS: &[(Scalar, i64, bool)] = &[
    (Scalar::U32, 0, true),
    (Scalar::U32, 4_294_967_295, true),
    (Scalar::U32, 4_294_967_296, false),
    (Scalar::U32, -1, false),
    (Scalar::I32, 0, false),
    (Scalar::Bool, 1, false),
    (Scalar::Abstract, 1, false),
];

#[test]
fn first_values(rt: HostRuntime) -> Result<(), Fail> {
    let alloc = rt.alloc();
    let mut table = TypeTable::new(alloc);
    let _ = table.add(U)?;
    let types = Types::new(alloc, &table)?;
    for (scalar, number, expected) in BEGINNINGS {
        let value = Value::One(Leaf {
            scalar: *scalar,
            number: *number,
        });
        assert_eq!(rt;
            is_value_of(&types, TypeId(0), &value),
            *expected,
            "{scalar:?} {number}"
        );
        let mut list = Items::new(alloc);
        list.push(root(alloc, "v", Some(value))?)?;
        assert_eq!(rt;
            are_roots(&types, list.as_slice()),
            *expected,
            "{scalar:?} {number}"
        );
    }
    Ok(())
}
