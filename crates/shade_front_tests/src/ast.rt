//! Names as a table, and trees built by hand with the tokens that they spell.

ghost use Rattle.std.specs.Prelude.{◌≡◌, ◌<◌, ◌∷◌, [], IfSome, OnSome};
ghost use Rattle.shade_ast.specs.Names.{number_in, with_name};
ghost use Rattle.shade_front_tests.specs.Samples.{first_line, expr_at, assert_lexemes, assert_tree};
ghost use Rattle.shade_ast.specs.Spells.{Spells};

use shade_ast::{Decl, DeclKind, Expr, ExprKind, Infix, NameKey, Names, Tree};
use shade_base::Place;
use shade_lex::Suffix;
use sqlite_items::{Boxed, Items};
use std::alloc::Global;
use std::test::Fail;

/// The number of a text, where one more name has a number.
fn number(names: &mut Names, text: &str) -> Option<u32>
    ensures number { IfSome result (λ n. n ≡ number_in names.old text.now) }
    ensures names { OnSome result (names.new ≡ with_name names.old text.now) }
{
    if names.len() >= 4_294_967_295 {
        return None;
    }
    names.number(text).ok()
}

/// The text of a number, where it has one.
fn text(names: &Names, number: u32) -> Option<&str> {
    if number as usize >= names.len() {
        return None;
    }
    Some(names.text(number))
}

#[test]
fn names_as_a_table(rt: HostRuntime) {
    let mut names = Names::new(rt.alloc(), NameKey::of("a name"));
    assert_eq!(rt; names.len(), 0);
    let cases = [
        ("a", 0, 1),
        ("main", 1, 2),
        ("a", 0, 2),
        ("mai", 2, 3),
        ("α", 3, 4),
        ("main", 1, 4),
        ("A", 4, 5),
    ];
    for (name, at, count) in cases {
        assert_eq!(rt; number(&mut names, name), Some(at));
        assert_eq!(rt; names.len(), count);
        assert_eq!(rt; text(&names, at), Some(name));
    }
}

/// An expression with its place in the first line.
fn expr(node: u32, offset: u32, kind: ExprKind) -> Expr
    requires { offset < 100 }
    ensures { result ≡ expr_at node offset kind }
{
    let place = place(offset);
    Expr { node, place, kind }
}

fn place(offset: u32) -> Place
    requires { offset < 100 }
    ensures { result ≡ first_line offset }
{
    Place {
        offset,
        line: 1,
        column: offset + 1,
    }
}

fn boxed(alloc: Global, expr: Expr) -> Option<Boxed<Expr>>
    ensures { IfSome result (λ b. b ≡ expr) }
{
    Boxed::new(alloc, expr).ok()
}

fn only(alloc: Global, decl: Decl) -> Option<Items<Decl>>
    ensures { IfSome result (λ decls. decls ≡ decl ∷ []) }
{
    let mut decls = Items::new(alloc);
    match decls.push(decl) {
        Ok(()) => Some(decls),
        Err(_) => None,
    }
}

/// The tree of `const_assert a >= 2u;`, which spells its tokens.
#[tactic(auto, using(crate::proofs::Samples::assert_spelled))]
fn assertion(alloc: Global) -> Option<Tree>
    ensures tree { IfSome result (λ tree. tree ≡ assert_tree) }
    ensures spells { IfSome result (λ tree. Spells tree assert_lexemes) }
{
    let mut names = Names::new(alloc, NameKey::of("const_assert a >= 2u;"));
    let name = number(&mut names, "a")?;
    let left = boxed(alloc, expr(0, 13, ExprKind::Name(name)))?;
    let literal = ExprKind::Number {
        value: 2,
        suffix: Suffix::Unsigned,
    };
    let right = boxed(alloc, expr(1, 18, literal))?;
    let comparison = ExprKind::Infix {
        left,
        operator: Infix::GreaterEqual,
        at: place(15),
        right,
    };
    let decl = Decl {
        node: 3,
        place: place(0),
        kind: DeclKind::ConstAssert(expr(2, 13, comparison)),
    };
    let decls = only(alloc, decl)?;
    Some(Tree {
        directives: Items::new(alloc),
        decls,
        names,
    })
}

#[test]
fn a_tree_by_hand(rt: HostRuntime) -> Result<(), Fail> {
    let tree = assertion(rt.alloc()).ok_or("no memory")?;
    assert_eq!(rt; tree.names.len(), 1);
    assert_eq!(rt; tree.decls.len(), 1);
    Ok(())
}
