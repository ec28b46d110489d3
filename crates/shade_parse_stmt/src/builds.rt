//! Trees of statements from their parts.

ghost use Rattle.std.specs.Prelude.{◌≡◌, ◌+◌, ◌<◌, ◌^◌, ◌++◌, ◌∷◌, [], ℕ, List, true, false, length, slice_get, None, Some, MatchResult, IsTrue, OnSome};
ghost use Rattle.shade_ast.specs.declared.stmt.Block.{out-Block};
ghost use Rattle.shade_ast.specs.declared.stmt.Continuing.{out-Continuing};
ghost use Rattle.shade_ast.specs.declared.stmt.Otherwise.{out-Otherwise};
ghost use Rattle.shade_ast.specs.declared.stmt.Arm.{out-Arm};
ghost use Rattle.shade_parse_simple.specs.Readings.{first_of};
ghost use Rattle.shade_parse_stmt.specs.Trees.{update_first, simple_first, IsBlockStatement};

use crate::parts::{
    Body, Branches, ClauseBody, ForParts, Guarded, LastBody, LoopParts, Selectors, SwitchParts,
};
use shade_ast::{
    Arm, Attr, Block, Clause, Continuing, Otherwise, Selector, Simple, Stmt, StmtKind, Update,
};
use shade_base::Place;
use shade_cursor::part::Fault;
use shade_parse_simple::attributes::first_place;
use shade_parse_simple::read::Read;
use sqlite_items::{Boxed, Items};
use std::alloc::Global;

/// A statement of a kind, with the next number.
pub fn statement_of(kind: StmtKind, place: Place, end: usize, node: u32) -> Read<Stmt>
    requires { node + 1 < 2 ^ 32 }
    ensures { result ≡ record { tree = record { node = node; place = place; kind = kind }; end = end; node = node + 1 } }
{
    Read {
        tree: Stmt { node, place, kind },
        end,
        node: node + 1,
    }
}

fn update_place(update: &Update) -> Place
    ensures { result ≡ update_first update.now }
{
    match update {
        Update::Assign { target, .. } => target.place,
        Update::Compound { target, .. } => target.place,
        Update::Phony { underscore, .. } => *underscore,
        Update::Increment { target, .. } => target.place,
        Update::Decrement { target, .. } => target.place,
        Update::Call(callee) => callee.place,
    }
}

/// The place of a simple statement's first token.
pub fn simple_place(simple: &Simple) -> Place
    ensures { result ≡ simple_first simple.now }
{
    match simple {
        Simple::Var(variable) => variable.keyword,
        Simple::Const(constant) => constant.keyword,
        Simple::Let(bound) => bound.keyword,
        Simple::Update(update) => update_place(update),
    }
}

/// A block with its attributes and the place of its `{`.
pub fn block_of(attrs: Items<Attr>, place: Place, body: Read<Body>) -> Read<Block>
    requires { body.node + 1 < 2 ^ 32 }
    ensures tree { out-Block result.tree ≡ record { node = body.node; place = first_of attrs place; attrs = attrs; body = body.tree.statements; end = body.tree.end } }
    ensures end { result.end ≡ body.end }
    ensures node { result.node ≡ body.node + 1 }
{
    let tree = Block {
        node: body.node,
        place: first_place(&attrs, place),
        attrs,
        body: body.tree.statements,
        end: body.tree.end,
    };
    Read {
        tree,
        end: body.end,
        node: body.node + 1,
    }
}

/// A block as a statement.
pub fn block_statement(attrs: Items<Attr>, place: Place, body: Read<Body>) -> Read<Stmt>
    requires { body.node + 2 < 2 ^ 32 }
    ensures tree { IsBlockStatement attrs place body.tree body.node result.tree }
    ensures end { result.end ≡ body.end }
    ensures node { result.node ≡ body.node + 2 }
{
    let first = first_place(&attrs, place);
    let block = block_of(attrs, place, body);
    statement_of(StmtKind::Block(block.tree), first, block.end, block.node)
}

/// An `if` with its first block and what follows it.
pub fn if_statement(
    attrs: Items<Attr>,
    keyword: Place,
    first: Guarded,
    others: Read<Branches>,
) -> Read<Stmt>
    requires { others.node + 1 < 2 ^ 32 }
    ensures { result ≡ record {
      tree = record {
        node = others.node;
        place = first_of attrs keyword;
        kind = StmtKind.If attrs keyword first.condition first.body others.tree.arms others.tree.otherwise;
      };
      end = others.end;
      node = others.node + 1;
    } }
{
    let place = first_place(&attrs, keyword);
    let kind = StmtKind::If {
        attrs,
        keyword,
        condition: first.condition,
        then: first.body,
        arms: others.tree.arms,
        otherwise: others.tree.otherwise,
    };
    statement_of(kind, place, others.end, others.node)
}

/// A `switch`.
pub fn switch_statement(attrs: Items<Attr>, keyword: Place, rest: Read<SwitchParts>) -> Read<Stmt>
    requires { rest.node + 1 < 2 ^ 32 }
    ensures { result ≡ record {
      tree = record {
        node = rest.node;
        place = first_of attrs keyword;
        kind = StmtKind.Switch attrs keyword rest.tree.selector rest.tree.inner rest.tree.clauses rest.tree.end;
      };
      end = rest.end;
      node = rest.node + 1;
    } }
{
    let place = first_place(&attrs, keyword);
    let kind = StmtKind::Switch {
        attrs,
        keyword,
        selector: rest.tree.selector,
        inner: rest.tree.inner,
        clauses: rest.tree.clauses,
        end: rest.tree.end,
    };
    statement_of(kind, place, rest.end, rest.node)
}

/// A `loop`.
pub fn loop_statement(attrs: Items<Attr>, keyword: Place, rest: Read<LoopParts>) -> Read<Stmt>
    requires { rest.node + 1 < 2 ^ 32 }
    ensures { result ≡ record {
      tree = record {
        node = rest.node;
        place = first_of attrs keyword;
        kind = StmtKind.Loop attrs keyword rest.tree.inner rest.tree.body rest.tree.continuing rest.tree.end;
      };
      end = rest.end;
      node = rest.node + 1;
    } }
{
    let place = first_place(&attrs, keyword);
    let kind = StmtKind::Loop {
        attrs,
        keyword,
        inner: rest.tree.inner,
        body: rest.tree.body,
        continuing: rest.tree.continuing,
        end: rest.tree.end,
    };
    statement_of(kind, place, rest.end, rest.node)
}

/// A `for`.
pub fn for_statement(attrs: Items<Attr>, keyword: Place, rest: Read<ForParts>) -> Read<Stmt>
    requires { rest.node + 1 < 2 ^ 32 }
    ensures { result ≡ record {
      tree = record {
        node = rest.node;
        place = first_of attrs keyword;
        kind = StmtKind.For attrs keyword rest.tree.head.initial rest.tree.head.condition rest.tree.head.update rest.tree.body;
      };
      end = rest.end;
      node = rest.node + 1;
    } }
{
    let place = first_place(&attrs, keyword);
    let kind = StmtKind::For {
        attrs,
        keyword,
        initial: rest.tree.head.initial,
        condition: rest.tree.head.condition,
        update: rest.tree.head.update,
        body: rest.tree.body,
    };
    statement_of(kind, place, rest.end, rest.node)
}

/// A `while`.
pub fn while_statement(attrs: Items<Attr>, keyword: Place, rest: Read<Guarded>) -> Read<Stmt>
    requires { rest.node + 1 < 2 ^ 32 }
    ensures { result ≡ record {
      tree = record {
        node = rest.node;
        place = first_of attrs keyword;
        kind = StmtKind.While attrs keyword rest.tree.condition rest.tree.body;
      };
      end = rest.end;
      node = rest.node + 1;
    } }
{
    let place = first_place(&attrs, keyword);
    let kind = StmtKind::While {
        attrs,
        keyword,
        condition: rest.tree.condition,
        body: rest.tree.body,
    };
    statement_of(kind, place, rest.end, rest.node)
}

/// An `else if`.
pub fn arm_of(else_keyword: Place, if_keyword: Place, guarded: Guarded) -> Arm
    ensures { out-Arm result ≡ record { else_keyword = else_keyword; if_keyword = if_keyword; condition = guarded.condition; body = guarded.body } }
{
    Arm {
        else_keyword,
        if_keyword,
        condition: guarded.condition,
        body: guarded.body,
    }
}

/// A last `else`.
pub fn otherwise_of(keyword: Place, body: Block) -> Otherwise
    ensures { out-Otherwise result ≡ record { keyword = keyword; body = body } }
{
    Otherwise { keyword, body }
}

/// A clause with selectors.
pub fn case_of(keyword: Place, list: Selectors, rest: ClauseBody) -> Clause
    ensures { result ≡ Clause.Case keyword list.items list.trailing rest.colon rest.body }
{
    Clause::Case {
        keyword,
        selectors: list.items,
        trailing: list.trailing,
        colon: rest.colon,
        body: rest.body,
    }
}

/// A clause that needs none.
pub fn default_of(keyword: Place, rest: ClauseBody) -> Clause
    ensures { result ≡ Clause.Default keyword rest.colon rest.body }
{
    Clause::Default {
        keyword,
        colon: rest.colon,
        body: rest.body,
    }
}

/// A continuing part.
pub fn continuing_of(keyword: Place, attrs: Items<Attr>, body: LastBody) -> Continuing
    ensures { out-Continuing result ≡ record { keyword = keyword; attrs = attrs; body = body.statements; leave = body.leave; end = body.end } }
{
    Continuing {
        keyword,
        attrs,
        body: body.statements,
        leave: body.leave,
        end: body.end,
    }
}

/// A last `else` in a box of its own.
pub fn boxed_otherwise(alloc: Global, value: Otherwise) -> Result<Boxed<Otherwise>, Fault>
    ensures { MatchResult result (λ b. b ≡ value) (λ f. f ≡ Fault.NoMemory) }
{
    Boxed::new(alloc, value).map_err(|_| Fault::NoMemory)
}

/// A continuing part in a box of its own.
pub fn boxed_continuing(alloc: Global, value: Continuing) -> Result<Boxed<Continuing>, Fault>
    ensures { MatchResult result (λ b. b ≡ value) (λ f. f ≡ Fault.NoMemory) }
{
    Boxed::new(alloc, value).map_err(|_| Fault::NoMemory)
}

/// A list of one statement, with room for no other: most blocks that are nested deep hold one.
fn first_statement(alloc: Global, item: Stmt) -> Result<Items<Stmt>, Fault>
    ensures { MatchResult result (λ items. items ≡ item ∷ []) (λ f. f ≡ Fault.NoMemory) }
{
    let Ok(mut one) = Vec::with_capacity(alloc, 1) else {
        return Err(Fault::NoMemory);
    };
    one.push(item).map_err(|_| Fault::NoMemory)?;
    Ok(Items::from_vec(one))
}

/// One statement more.
pub fn push_statement(alloc: Global, items: &mut Items<Stmt>, item: Stmt) -> Result<(), Fault>
    ensures { MatchResult result (λ u. items.new ≡ items.old ++ item ∷ []) (λ f. f ≡ Fault.NoMemory) }
{
    if items.is_empty() {
        *items = first_statement(alloc, item)?;
        return Ok(());
    }
    items.push(item).map_err(|_| Fault::NoMemory)
}

/// One arm more.
pub fn push_arm(items: &mut Items<Arm>, item: Arm) -> Result<(), Fault>
    ensures { MatchResult result (λ u. items.new ≡ items.old ++ item ∷ []) (λ f. f ≡ Fault.NoMemory) }
{
    items.push(item).map_err(|_| Fault::NoMemory)
}

/// One clause more.
pub fn push_clause(items: &mut Items<Clause>, item: Clause) -> Result<(), Fault>
    ensures { MatchResult result (λ u. items.new ≡ items.old ++ item ∷ []) (λ f. f ≡ Fault.NoMemory) }
{
    items.push(item).map_err(|_| Fault::NoMemory)
}

/// One selector more.
pub fn push_selector(items: &mut Items<Selector>, item: Selector) -> Result<(), Fault>
    ensures { MatchResult result (λ u. items.new ≡ items.old ++ item ∷ []) (λ f. f ≡ Fault.NoMemory) }
{
    items.push(item).map_err(|_| Fault::NoMemory)
}
