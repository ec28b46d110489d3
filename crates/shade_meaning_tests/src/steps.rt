//! The steps of expressions, types, declarations and directives, in their order, written out by hand.

use crate::reading::{expr_of, tree_of};
use shade_ast::{Expr, Tree};
use shade_parse_expr::Goal;
use shade_steps::{Step, Task, TypeRole, add_decl, add_directive, add_type, add_value};
use sqlite_items::Items;
use std::alloc::{AllocError, Global};
use std::test::Fail;

/// What a step asks.
#[derive(Clone, Copy, Debug, PartialEq, Eq, Drop)]
enum Asked {
    Value,
    Operand,
    Type,
    AliasType,
    VariableType,
    LastType,
    ParameterType,
    Decides,
    Number,
    Truth,
    Name,
    Template,
    Argument,
    Paren,
    Prefix,
    Infix,
    Member,
    Index,
    Call,
    Condition,
    Target,
    Assigns,
    Compound,
    Increment,
    Decrement,
    Dropped,
    Constant,
    Binds,
    Variable,
    Asserts,
    Returns,
    Discards,
    Selects,
    Case,
    Default,
    Chosen,
    Attribute,
    Alias,
    Struct,
    Parameter,
    Result,
    Function,
    Finished,
    Override,
    Requires,
    Enables,
}

fn type_asked(role: TypeRole) -> Asked {
    match role {
        TypeRole::Alias => Asked::AliasType,
        TypeRole::Variable(_) => Asked::VariableType,
        TypeRole::LastMember => Asked::LastType,
        TypeRole::Parameter => Asked::ParameterType,
        TypeRole::Other => Asked::Type,
    }
}

fn asked_of(task: &Task) -> Asked {
    match task {
        Task::IsValue => Asked::Value,
        Task::IsOperand => Asked::Operand,
        Task::IsType(role) => type_asked(*role),
        Task::Decides { .. } => Asked::Decides,
        Task::Number { .. } => Asked::Number,
        Task::Truth(_) => Asked::Truth,
        Task::Name(_) => Asked::Name,
        Task::Template { .. } => Asked::Template,
        Task::Argument { .. } => Asked::Argument,
        Task::Paren(_) => Asked::Paren,
        Task::Prefix { .. } => Asked::Prefix,
        Task::Infix { .. } => Asked::Infix,
        Task::Member { .. } => Asked::Member,
        Task::Index { .. } => Asked::Index,
        Task::Call { .. } => Asked::Call,
        Task::Condition => Asked::Condition,
        Task::Target => Asked::Target,
        Task::Assigns { .. } => Asked::Assigns,
        Task::Compound { .. } => Asked::Compound,
        Task::Increment { .. } => Asked::Increment,
        Task::Decrement { .. } => Asked::Decrement,
        Task::Dropped { .. } => Asked::Dropped,
        Task::Constant { .. } => Asked::Constant,
        Task::Binds { .. } => Asked::Binds,
        Task::Variable(_) => Asked::Variable,
        Task::Asserts { .. } => Asked::Asserts,
        Task::Returns { .. } => Asked::Returns,
        Task::Discards => Asked::Discards,
        Task::Selects { .. } => Asked::Selects,
        Task::Case { .. } => Asked::Case,
        Task::Default => Asked::Default,
        Task::Chosen => Asked::Chosen,
        Task::Attribute(_) => Asked::Attribute,
        Task::Alias(_) => Asked::Alias,
        Task::Struct { .. } => Asked::Struct,
        Task::Parameter(_) => Asked::Parameter,
        Task::Result => Asked::Result,
        Task::Function(_) => Asked::Function,
        Task::Finished { .. } => Asked::Finished,
        Task::Override => Asked::Override,
        Task::Requires(_) => Asked::Requires,
        Task::Enables(_) => Asked::Enables,
    }
}

/// The node of a step, what it asks, and the `&&` or `||` in whose right side it stands.
type Row = (u32, Asked, Option<u32>);

fn are(steps: &[Step], rows: &[Row]) -> bool {
    if steps.len() != rows.len() {
        return false;
    }
    for (step, row) in steps.iter().zip(rows) {
        if (step.node, asked_of(&step.task), step.under) != *row {
            return false;
        }
    }
    true
}

fn value_steps(alloc: Global, e: &Expr) -> Result<Items<Step>, AllocError> {
    let mut steps = Items::new(alloc);
    add_value(alloc, e, None, &mut steps)?;
    Ok(steps)
}

fn type_steps(alloc: Global, e: &Expr) -> Result<Items<Step>, AllocError> {
    let mut steps = Items::new(alloc);
    add_type(alloc, e, TypeRole::Other, &mut steps)?;
    Ok(steps)
}

const NONE: Option<u32> = None;

/// Expressions, and their steps as values.
const VALUES: &[(&str, &[Row])] = &[
    ("1", &[(0, Asked::Number, NONE), (0, Asked::Value, NONE)]),
    (
        "-(x)",
        &[
            (0, Asked::Name, NONE),
            (0, Asked::Operand, NONE),
            (1, Asked::Paren, NONE),
            (1, Asked::Value, NONE),
            (2, Asked::Prefix, NONE),
            (2, Asked::Value, NONE),
        ],
    ),
    (
        "&x",
        &[
            (0, Asked::Name, NONE),
            (0, Asked::Operand, NONE),
            (1, Asked::Prefix, NONE),
            (1, Asked::Value, NONE),
        ],
    ),
    (
        "a == b && c[i].m",
        &[
            (0, Asked::Name, NONE),
            (0, Asked::Value, NONE),
            (1, Asked::Name, NONE),
            (1, Asked::Value, NONE),
            (2, Asked::Infix, NONE),
            (2, Asked::Value, NONE),
            (8, Asked::Decides, NONE),
            (3, Asked::Name, Some(8)),
            (3, Asked::Operand, Some(8)),
            (4, Asked::Name, Some(8)),
            (4, Asked::Value, Some(8)),
            (5, Asked::Index, Some(8)),
            (7, Asked::Member, Some(8)),
            (7, Asked::Value, Some(8)),
            (8, Asked::Infix, NONE),
            (8, Asked::Value, NONE),
        ],
    ),
    (
        "false || f(1, array<u32, 2>())",
        &[
            (0, Asked::Truth, NONE),
            (0, Asked::Value, NONE),
            (8, Asked::Decides, NONE),
            (1, Asked::Name, Some(8)),
            (2, Asked::Number, Some(8)),
            (2, Asked::Value, Some(8)),
            (3, Asked::Name, NONE),
            (3, Asked::Argument, NONE),
            (4, Asked::Number, NONE),
            (4, Asked::Argument, NONE),
            (5, Asked::Template, Some(8)),
            (6, Asked::Call, Some(8)),
            (6, Asked::Value, Some(8)),
            (7, Asked::Call, Some(8)),
            (7, Asked::Value, Some(8)),
            (8, Asked::Infix, NONE),
            (8, Asked::Value, NONE),
        ],
    ),
];

/// Types, and their steps.
const TYPES: &[(&str, &[Row])] = &[
    ("u32", &[(0, Asked::Name, NONE), (0, Asked::Type, NONE)]),
    (
        "array<vec2<i32>, n + 1>",
        &[
            (0, Asked::Name, NONE),
            (0, Asked::Argument, NONE),
            (1, Asked::Template, NONE),
            (1, Asked::Argument, NONE),
            (2, Asked::Name, NONE),
            (2, Asked::Value, NONE),
            (3, Asked::Number, NONE),
            (3, Asked::Value, NONE),
            (4, Asked::Infix, NONE),
            (4, Asked::Argument, NONE),
            (5, Asked::Template, NONE),
            (5, Asked::Type, NONE),
        ],
    ),
];

fn value_is(alloc: Global, text: &str, rows: &[Row]) -> Result<bool, AllocError> {
    let Some(e) = expr_of(alloc, text, Goal::Whole) else {
        return Ok(rows.is_empty());
    };
    let steps = value_steps(alloc, &e)?;
    Ok(are(steps.as_slice(), rows))
}

fn type_is(alloc: Global, text: &str, rows: &[Row]) -> Result<bool, AllocError> {
    let Some(e) = expr_of(alloc, text, Goal::TypeName) else {
        return Ok(rows.is_empty());
    };
    let steps = type_steps(alloc, &e)?;
    Ok(are(steps.as_slice(), rows))
}

/// The offset of the place of a step, and what it asks.
type Placed = (u32, Asked);

fn are_placed(steps: &[Step], rows: &[Placed]) -> bool {
    if steps.len() != rows.len() {
        return false;
    }
    for (step, row) in steps.iter().zip(rows) {
        if (step.place.offset, asked_of(&step.task)) != *row {
            return false;
        }
    }
    true
}

fn tree_steps(alloc: Global, tree: &Tree) -> Result<Items<Step>, AllocError> {
    let mut steps = Items::new(alloc);
    for directive in tree.directives.as_slice() {
        add_directive(directive, &mut steps)?;
    }
    for decl in tree.decls.as_slice() {
        add_decl(alloc, &tree.names, decl, &mut steps)?;
    }
    Ok(steps)
}

/// Texts, and the steps of their directives and declarations.
const TEXTS: &[(&str, &[Placed])] = &[
    (
        "enable a; requires b, c;",
        &[
            (0, Asked::Enables),
            (19, Asked::Requires),
            (22, Asked::Requires),
        ],
    ),
    (
        "var<private> a: u32 = 1; alias A = u32; const_assert true;",
        &[
            (4, Asked::Name),
            (16, Asked::Name),
            (16, Asked::VariableType),
            (22, Asked::Number),
            (22, Asked::Value),
            (13, Asked::Variable),
            (35, Asked::Name),
            (35, Asked::AliasType),
            (31, Asked::Alias),
            (53, Asked::Truth),
            (53, Asked::Value),
            (53, Asked::Asserts),
        ],
    ),
    (
        "struct S { @align(4) a: u32, b: array<u32> }",
        &[
            (18, Asked::Number),
            (18, Asked::Value),
            (11, Asked::Attribute),
            (24, Asked::Name),
            (24, Asked::Type),
            (38, Asked::Name),
            (38, Asked::Argument),
            (32, Asked::Template),
            (32, Asked::LastType),
            (7, Asked::Struct),
        ],
    ),
    (
        "@compute fn f(@builtin(x) i: u32) { var v = i; v += 1u; g(v); }",
        &[
            (0, Asked::Attribute),
            (14, Asked::Attribute),
            (29, Asked::Name),
            (29, Asked::ParameterType),
            (26, Asked::Parameter),
            (12, Asked::Function),
            (44, Asked::Name),
            (44, Asked::Value),
            (40, Asked::Variable),
            (47, Asked::Name),
            (47, Asked::Value),
            (47, Asked::Target),
            (52, Asked::Number),
            (52, Asked::Value),
            (47, Asked::Compound),
            (56, Asked::Name),
            (58, Asked::Name),
            (58, Asked::Value),
            (56, Asked::Call),
            (56, Asked::Dropped),
            (0, Asked::Finished),
        ],
    ),
    (
        "fn f(p: u32) -> u32 { switch p { case 1, default { discard; } } loop { continuing { break if p > 3; } } return p; }",
        &[
            (8, Asked::Name),
            (8, Asked::ParameterType),
            (5, Asked::Parameter),
            (16, Asked::Name),
            (16, Asked::Type),
            (16, Asked::Result),
            (3, Asked::Function),
            (29, Asked::Name),
            (29, Asked::Value),
            (22, Asked::Selects),
            (38, Asked::Number),
            (38, Asked::Value),
            (38, Asked::Case),
            (41, Asked::Default),
            (51, Asked::Discards),
            (22, Asked::Chosen),
            (93, Asked::Name),
            (93, Asked::Value),
            (97, Asked::Number),
            (97, Asked::Value),
            (93, Asked::Infix),
            (93, Asked::Value),
            (93, Asked::Condition),
            (111, Asked::Name),
            (111, Asked::Value),
            (104, Asked::Returns),
            (0, Asked::Finished),
        ],
    ),
    (
        "fn f() { for (var i = 0; i < 2; i++) { _ = i; } while false { x = 1; } }",
        &[
            (3, Asked::Function),
            (22, Asked::Number),
            (22, Asked::Value),
            (18, Asked::Variable),
            (25, Asked::Name),
            (25, Asked::Value),
            (29, Asked::Number),
            (29, Asked::Value),
            (25, Asked::Infix),
            (25, Asked::Value),
            (25, Asked::Condition),
            (32, Asked::Name),
            (32, Asked::Value),
            (32, Asked::Target),
            (32, Asked::Increment),
            (43, Asked::Name),
            (43, Asked::Value),
            (54, Asked::Truth),
            (54, Asked::Value),
            (54, Asked::Condition),
            (62, Asked::Name),
            (62, Asked::Target),
            (66, Asked::Number),
            (66, Asked::Value),
            (62, Asked::Assigns),
            (0, Asked::Finished),
        ],
    ),
];

fn text_is(alloc: Global, text: &str, rows: &[Placed]) -> Result<bool, AllocError> {
    let Some(tree) = tree_of(alloc, text) else {
        return Ok(rows.is_empty());
    };
    let steps = tree_steps(alloc, &tree)?;
    Ok(are_placed(steps.as_slice(), rows))
}

#[test]
fn steps_of_texts(rt: HostRuntime) -> Result<(), Fail> {
    let alloc = rt.alloc();
    for (text, rows) in VALUES {
        assert!(rt; value_is(alloc, text, rows)?, "{text}");
    }
    for (text, rows) in TYPES {
        assert!(rt; type_is(alloc, text, rows)?, "{text}");
    }
    for (text, rows) in TEXTS {
        assert!(rt; text_is(alloc, text, rows)?, "{text}");
    }
    Ok(())
}
