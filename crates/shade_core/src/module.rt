//! Modules and functions.

use crate::statement::Statements;
use shade_base::Place;
use shade_values::{Access, Name, Space, TypeId, TypeTable, Value};
use sqlite_items::Items;

/// What an entry reads from its surroundings.
#[derive(Clone, Copy, Debug, PartialEq, Eq)]
pub enum BuiltinInput {
    LocalId,
    LocalIndex,
    GlobalId,
    GroupId,
    GroupCount,
}

/// A parameter of a function.
#[derive(Clone, Copy, Debug, PartialEq, Eq)]
pub enum CoreParam {
    /// A value of a type.
    Plain(TypeId),
    /// A pointer: the space that it points into and its own type.
    Pointer(Space, TypeId),
    /// An input of an entry.
    Input(BuiltinInput),
}

/// A list of parameters.
pub type CoreParams = Items<CoreParam>;

/// A list of types.
pub type TypeIds = Items<TypeId>;

/// A function: its name, the place of its name, its parameters, the types of its locals, the type of its result where
/// it has one, the size of its workgroup where it is an entry, and its statements.
#[derive(Drop)]
pub struct CoreFunction {
    pub name: Name,
    pub place: Place,
    pub params: CoreParams,
    pub locals: TypeIds,
    pub result: Option<TypeId>,
    pub entry: Option<[u32; 3]>,
    pub body: Statements,
}

/// A list of functions, in the order of the text.
pub type Functions = Items<CoreFunction>;

/// A variable of the module.
#[derive(Drop)]
pub struct Root {
    pub name: Name,
    pub space: Space,
    pub access: Access,
    pub ty: TypeId,
    pub initial: Option<Value>,
}

/// A list of roots, in the order of the text.
pub type Roots = Items<Root>;

/// A module: its types, its variables and its functions.
#[derive(Drop)]
pub struct CoreModule {
    pub types: TypeTable,
    pub roots: Roots,
    pub functions: Functions,
}

/// A statement of a module: the number of its function and its own number there.
#[derive(Clone, Copy, Debug, PartialEq, Eq)]
pub struct Site {
    pub function: u32,
    pub statement: u32,
}
