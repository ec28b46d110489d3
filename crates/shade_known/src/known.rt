//! What is known of the nodes of a tree.

ghost use Rattle.std.specs.Prelude.{◌≡◌, IfOk, replicate, None};
ghost use Rattle.shade_values.specs.Table.{no_types};

use shade_base::Place;
use shade_overload::Builtin;
use shade_values::{Access, Op, ShadeType, Space, TypeId, TypeTable, Value};
use sqlite_items::Items;
use std::alloc::{AllocError, Global};

/// A node of a tree, by its number, and the place of its first token.
#[derive(Clone, Copy, Debug, PartialEq, Eq)]
pub struct Operand {
    pub node: u32,
    pub place: Place,
}

/// What of a variable a reference names, with the operation of its last access.
#[derive(Clone, Copy, Debug, PartialEq, Eq)]
pub enum Part {
    /// All of it, or all that a pointer points to.
    Whole,
    /// A member of a struct or an element of an array, which has an address.
    Addressed(Op),
    /// A component of a vector, which has none.
    Component(Op),
}

/// An access by the word that names it.
#[derive(Clone, Copy, Debug, PartialEq, Eq)]
pub enum AccessWord {
    Read,
    Write,
    ReadWrite,
}

/// A word that makes a type with a template list.
#[derive(Clone, Copy, Debug, PartialEq, Eq)]
pub enum Generator {
    /// `vecN`: the number of parts.
    Vector(u8),
    Array,
    Atomic,
    Pointer,
}

/// What is known of a node.
#[derive(Debug, Drop)]
pub enum What {
    /// It is a value of this type, made by this operation, and, where it is constant, this one.
    Value {
        ty: TypeId,
        op: Option<Op>,
        value: Option<Value>,
    },
    /// It names memory of this type, which begins with this value where a module's variable has one.
    Reference {
        ty: TypeId,
        space: Space,
        access: Access,
        part: Part,
        value: Option<Value>,
    },
    /// It is a type; a pointer may be one whose access is none of its space.
    Type {
        ty: TypeId,
        bad_access: bool,
    },
    Space(Space),
    Access(AccessWord),
    Generator(Generator),
    /// A built-in function, or a constructor with the type that is written.
    Builtin(Builtin),
    /// A function of the text.
    Function {
        parameters: Items<TypeId>,
        result: Option<TypeId>,
        must_use: bool,
        entry: bool,
    },
    /// A `switch` whose selector has this type, the keys of its cases so far, and how many defaults it has.
    Switch {
        ty: TypeId,
        keys: Items<i64>,
        defaults: u32,
    },
    /// The first attribute that stands before something, and the names of all of them so far, by their numbers.
    Attributes(Items<u32>),
    /// A `&&` or `||`: whether nobody asks for its right side.
    Decided(bool),
}

/// What is known of each node, by its number.
pub type Facts = Items<Option<What>>;

/// The types that a tree names so far, and what is known of its nodes.
#[derive(Debug, Drop)]
pub struct Known {
    pub types: TypeTable,
    pub facts: Facts,
}

/// What a rule tells of a node: the same as `What`, with a type in place of its id where the table may lack it.
#[derive(Debug, Drop)]
pub enum Found {
    Value {
        ty: ShadeType,
        op: Option<Op>,
        value: Option<Value>,
    },
    Reference {
        ty: ShadeType,
        space: Space,
        access: Access,
        part: Part,
        value: Option<Value>,
    },
    Type {
        ty: ShadeType,
        bad_access: bool,
    },
    /// Something that names no type, or types of the table alone.
    Known(What),
    /// Nothing beyond what is known of it; a call without a result has no value.
    Nothing,
}

/// Makes what is known of a tree with so many nodes before anything is asked: no types, and nothing of any node.
pub fn nothing_known(alloc: Global, nodes: u32) -> Result<Known, AllocError>
    ensures types { IfOk result (λ known. known.types ≡ no_types) }
    ensures facts { IfOk result (λ known. known.facts ≡ replicate nodes None) }
{
    let mut facts = Vec::with_capacity(alloc, nodes as usize)?;
    for _node in 0..nodes {
        facts.push(None)?;
    }
    Ok(Known {
        types: TypeTable::new(alloc),
        facts: Items::from_vec(facts),
    })
}
