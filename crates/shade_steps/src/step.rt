//! Steps: what is asked of a node.

use shade_ast::{AttrName, Infix, Named, OpAssign, Prefix};
use shade_base::Place;
use shade_known::Operand;
use shade_lex::Suffix;
use sqlite_items::Items;

/// What is asked of a node, by the nodes of which it is made.
#[derive(Drop)]
pub enum Task {
    /// It is used as a value.
    IsValue,
    /// It is used as a value or as memory.
    IsOperand,
    /// It is used as a type, for this.
    IsType(TypeRole),
    /// It is a `&&` or `||` that its left side decides, or leaves to the right side.
    Decides {
        operator: Infix,
        left: Operand,
    },
    /// It is a number.
    Number {
        value: u64,
        suffix: Suffix,
    },
    /// It is `true` or `false`.
    Truth(bool),
    /// It is a name, by its number.
    Name(u32),
    /// It is a name with a template list.
    Template {
        name: u32,
        arguments: Items<Operand>,
    },
    /// It is an argument of the template list of a name, by the node and the number of the name.
    Argument {
        list: u32,
        name: u32,
        slot: Slot,
    },
    /// It is an expression in parentheses.
    Paren(Operand),
    /// It is an operator before an expression.
    Prefix {
        operator: Prefix,
        operand: Operand,
    },
    /// It is an operator between two expressions.
    Infix {
        left: Operand,
        operator: Infix,
        at: Place,
        right: Operand,
    },
    /// It is a part by its name.
    Member {
        whole: Operand,
        dot: Place,
        member: Named,
    },
    /// It is a part by its index.
    Index {
        whole: Operand,
        bracket: Place,
        index: Operand,
    },
    /// It is a call.
    Call {
        callee: Operand,
        arguments: Items<Operand>,
    },
    /// It is the condition of a statement.
    Condition,
    /// It is the target of an assignment.
    Target,
    /// It is a target that gets a value.
    Assigns {
        value: Operand,
    },
    /// It is a target that gets what an operator makes of it and a value.
    Compound {
        operator: OpAssign,
        at: Place,
        value: Operand,
    },
    /// It is a target to which one is added.
    Increment {
        at: Place,
    },
    /// It is a target from which one is taken.
    Decrement {
        at: Place,
    },
    /// It is a call of this that stands by itself as a statement.
    Dropped {
        callee: Operand,
    },
    /// It is the name of a `const`.
    Constant {
        ty: Option<Operand>,
        value: Operand,
    },
    /// It is the name of a `let`.
    Binds {
        ty: Option<Operand>,
        value: Operand,
    },
    /// It is the name of a `var`.
    Variable(VarParts),
    /// It is the condition of a `const_assert`, whose keyword stands at this place.
    Asserts {
        keyword: Place,
    },
    /// It is a `return` in the function with this node.
    Returns {
        function: u32,
        value: Option<Operand>,
    },
    /// It is a `discard`.
    Discards,
    /// It is a `switch` with this selector.
    Selects {
        selector: Operand,
    },
    /// It is a `switch` with this case value, whose place the step has.
    Case {
        value: Operand,
    },
    /// It is a `switch` with a default, whose place the step has.
    Default,
    /// It is a `switch`, and all its clauses were asked.
    Chosen,
    /// It is an attribute.
    Attribute(AttrParts),
    /// It is the name of an alias of this type.
    Alias(Operand),
    /// It is the name, with this number, of a struct whose first token stands at this place.
    Struct {
        place: Place,
        name: u32,
        members: Items<MemberParts>,
    },
    /// It is the name of a parameter.
    Parameter(MemberParts),
    /// It is the type of a function's result.
    Result,
    /// It is the name of a function, whose body is not asked yet.
    Function(FnParts),
    /// It is the function whose name has this node, and its body was asked.
    Finished {
        function: u32,
    },
    /// It is an `override`.
    Override,
    /// It is a name of a `requires`.
    Requires(u32),
    /// It is an `enable`, with its first name.
    Enables(Option<u32>),
}

/// What a type is written for, which decides whether an array without a count may stand there.
#[derive(Clone, Copy, Debug, PartialEq, Eq)]
pub enum TypeRole {
    /// It gets another name.
    Alias,
    /// It is the type of a variable, with the word for the variable's space where one is written.
    Variable(Option<Operand>),
    /// It is the type of the last member of a struct.
    LastMember,
    /// It is the type of a parameter.
    Parameter,
    /// It is the type of anything else.
    Other,
}

/// Where an argument stands in a template list.
#[derive(Clone, Copy, Debug, PartialEq, Eq)]
pub enum Slot {
    First,
    /// It is the second, behind this one.
    Second(Operand),
    Later,
}

/// An attribute, by its node and its name.
#[derive(Clone, Copy, Debug, PartialEq, Eq)]
pub struct AttrMark {
    pub node: u32,
    pub name: AttrName,
}

/// A member of a struct or a parameter, with its name, its type and its attributes.
#[derive(Drop)]
pub struct MemberParts {
    pub own: Operand,
    pub name: Named,
    pub ty: Operand,
    pub attributes: Items<AttrMark>,
}

/// The parts of a function but for its body: the place of its first token, its attributes, its parameters, and the type of its result.
#[derive(Drop)]
pub struct FnParts {
    pub place: Place,
    pub attributes: Items<AttrMark>,
    pub parameters: Items<MemberParts>,
    pub result: Option<Operand>,
}

/// Where a `var` stands.
#[derive(Clone, Copy, Debug, PartialEq, Eq)]
pub enum Level {
    Module,
    Function,
}

/// The parts of a `var`: where it stands, the place of its first token, and its attributes.
#[derive(Drop)]
pub struct VarParts {
    pub level: Level,
    pub place: Place,
    pub space: Option<Operand>,
    pub access: Option<Operand>,
    pub ty: Option<Operand>,
    pub value: Option<Operand>,
    pub attributes: Items<AttrMark>,
}

/// Before what an attribute stands.
#[derive(Clone, Copy, Debug, PartialEq, Eq)]
pub enum Position {
    Variable,
    Override,
    Function,
    /// A parameter of an entry.
    Input,
    /// A parameter of another function.
    Parameter,
    Result,
    Member,
    /// A block, a statement with blocks, or a part of one.
    Range,
}

/// The parts of an attribute: the node of the first one that stands before the same thing, its arguments where it has parentheses, the name
/// that is its only argument, and whether it is a diagnostic filter with the arguments that one takes.
#[derive(Drop)]
pub struct AttrParts {
    pub position: Position,
    pub first: u32,
    pub name: AttrName,
    pub arguments: Option<Items<Operand>>,
    pub word: Option<u32>,
    pub filter: bool,
}

/// A step: the node that it asks about, the place of its first token, what it asks, and the nearest `&&` or `||` in whose right side it
/// stands, if there is one.
#[derive(Drop)]
pub struct Step {
    pub node: u32,
    pub place: Place,
    pub under: Option<u32>,
    pub task: Task,
}
