//! Texts, read with the variables that stand before what is tested.

ghost use Rattle.std.specs.Prelude.{IfOk};
ghost use Rattle.shade_values.specs.Sound.{IsOf};

use shade_ast::{Decl, DeclKind, Expr, Tree};
use shade_base::Place;
use shade_known::{Found, Known, Part, TypingFault, id_of, keep};
use shade_lex::{Tokens, lex, templates};
use shade_parse::parse;
use shade_scope::{ScopeFault, Scoped, resolve};
use shade_values::{Access, Scalar, ShadeType, Space, TypeTable};
use std::alloc::Global;

/// What stands before each expression.
pub const FRONT: &str =
    "var<private> i: i32; var<private> u: u32; var<private> b: bool; var<private> v: vec3<u32>; var<workgroup> w: vec3<u32>; var<workgroup> a: atomic<u32>; var<storage> r: array<u32>; const_assert ";

/// A place in a text of one line.
pub fn place(offset: u32) -> Place {
    Place {
        offset,
        line: 1,
        column: offset.wrapping_add(1),
    }
}

/// The tree of a text, if it has one.
pub fn tree_of(alloc: Global, text: &str) -> Option<Tree> {
    if text.len() > 1_048_576 {
        return None;
    }
    let tokens = lex(alloc, text).ok()?;
    let pairs = templates(alloc, &tokens).ok()?;
    parse(alloc, &tokens, &pairs).ok()
}

/// What the tokens of a text mean, where they spell a tree.
fn meaning(alloc: Global, tokens: &Tokens) -> Result<Scoped, ScopeFault> {
    let _text = tokens.text();
    let Ok(pairs) = templates(alloc, tokens) else {
        return Err(ScopeFault::NoMemory);
    };
    match parse(alloc, tokens, &pairs) {
        Ok(tree) => resolve(alloc, tree),
        Err(_) => Err(ScopeFault::NoMemory),
    }
}

/// What a text means, where it spells a tree.
pub fn read(alloc: Global, text: &str) -> Result<Scoped, ScopeFault> {
    if text.len() > 1_048_576 {
        return Err(ScopeFault::NoMemory);
    }
    match lex(alloc, text) {
        Ok(tokens) => meaning(alloc, &tokens),
        Err(_) => Err(ScopeFault::NoMemory),
    }
}

/// How many nodes a tree has.
pub fn node_count(scoped: &Scoped) -> Result<u32, TypingFault> {
    match u32::try_from(scoped.uses.as_slice().len()) {
        Ok(count) => Ok(count),
        Err(_) => Err(TypingFault::NoMemory),
    }
}

/// The first assertion of a tree.
pub fn asserted(tree: &Tree) -> Option<&Expr> {
    for decl in tree.decls.as_slice() {
        if let DeclKind::ConstAssert(condition) = &decl.kind {
            return Some(condition);
        }
    }
    None
}

/// The type of the variable with a number.
fn declared_type(types: &mut TypeTable, number: u32, place: Place) -> Result<ShadeType, TypingFault>
    ensures { IfOk result (IsOf types.new) }
{
    match number {
        0 => Ok(ShadeType::Plain(Scalar::I32)),
        1 => Ok(ShadeType::Plain(Scalar::U32)),
        2 => Ok(ShadeType::Plain(Scalar::Bool)),
        3 | 4 => Ok(ShadeType::Vector(3, Scalar::U32)),
        5 => Ok(ShadeType::Atomic(Scalar::U32)),
        _ => {
            let element = id_of(types, place, ShadeType::Plain(Scalar::U32))?;
            Ok(ShadeType::RuntimeArray(element))
        }
    }
}

fn declared_space(number: u32) -> (Space, Access) {
    match number {
        4 | 5 => (Space::Workgroup, Access::ReadWrite),
        6 => (Space::Storage, Access::Read),
        _ => (Space::Private, Access::ReadWrite),
    }
}

fn declare_one(known: &mut Known, decl: &Decl, number: u32) -> Result<bool, TypingFault> {
    let DeclKind::Var { var, .. } = &decl.kind else {
        return Ok(false);
    };
    let ty = declared_type(&mut known.types, number, var.name.place)?;
    let (space, access) = declared_space(number);
    let found = Found::Reference {
        ty,
        space,
        access,
        part: Part::Whole,
        value: None,
    };
    keep(known, var.name.node, var.name.place, found)?;
    Ok(true)
}

/// Makes the variables of a tree known.
pub fn declare(known: &mut Known, tree: &Tree) -> Result<(), TypingFault> {
    let mut number = 0u32;
    for decl in tree.decls.as_slice() {
        if declare_one(known, decl, number)? {
            number = number.wrapping_add(1);
        }
    }
    Ok(())
}
