//! Statements and what they hold.

use shade_base::{Place, Severity};
use shade_values::{Op, Space, TypeId, Value};
use sqlite_items::Items;

/// A value that a statement takes.
#[derive(Drop)]
pub enum Operand {
    /// A constant and its type.
    Constant(TypeId, Value),
    /// A parameter of the function, by its number.
    Param(u32),
    /// The value of the statement with this number.
    Temp(u32),
}

/// A list of operands.
pub type Operands = Items<Operand>;

/// The variable that a view begins at.
#[derive(Clone, Copy, Debug, PartialEq, Eq)]
pub enum Base {
    /// A local variable of the function, by its number.
    Local(u32),
    /// A root of the module, by its number.
    Module(u32),
    /// What a pointer parameter points to, by the parameter's number.
    Pointee(u32),
}

/// One step from a composite to a part of it.
#[derive(Drop)]
pub enum ViewStep {
    /// A member of a struct or a component of a vector, by its number.
    Member(u32),
    /// An element of an array or a component of a vector.
    Index(Operand),
}

/// A list of view steps.
pub type ViewSteps = Items<ViewStep>;

/// A reference: a variable and the steps to a part of it.
#[derive(Drop)]
pub struct View {
    pub base: Base,
    pub steps: ViewSteps,
}

/// What a call hands over for one parameter.
#[derive(Drop)]
pub enum Argument {
    Plain(Operand),
    Pointer(View),
}

/// A list of arguments.
pub type Arguments = Items<Argument>;

/// A list of statements.
pub type Statements = Items<CoreStatement>;

/// A list of the parts of a switch.
pub type SwitchParts = Items<SwitchPart>;

/// The values at which a part of a switch is taken.
pub type Keys = Items<i64>;

/// A part of a switch: it is taken at its keys, and where it is the fallback at all values that no key names.
#[cycle(core)]
#[derive(Drop)]
pub struct SwitchPart {
    pub keys: Items<i64>,
    pub fallback: bool,
    pub body: Items<CoreStatement>,
}

/// A statement: its number in its function, its place in the text, and what it does.
#[cycle(core)]
#[derive(Drop)]
pub struct CoreStatement {
    pub number: u32,
    pub place: Place,
    pub act: Act,
}

/// What a statement does.
#[cycle(core)]
#[derive(Drop)]
pub enum Act {
    /// Gives the value of an operation.
    Set {
        op: Op,
        args: Items<Operand>,
    },
    /// Gives what stands in a variable or a part of one.
    Load {
        view: View,
    },
    /// Begins the life of a local variable, with a value or zero.
    Declare {
        local: u32,
        value: Option<Operand>,
    },
    /// Writes a variable or a part of one.
    Store {
        view: View,
        value: Operand,
    },
    /// Does one atomic operation.
    Atomic {
        op: Op,
        view: View,
        args: Items<Operand>,
    },
    /// Calls a function of the module, by its number.
    Call {
        function: u32,
        args: Items<Argument>,
    },
    /// Waits until all lanes of the workgroup wait here.
    Barrier {
        space: Space,
        severity: Severity,
    },
    /// Waits as a barrier does, and then gives one value to all lanes.
    UniformLoad {
        view: View,
        severity: Severity,
    },
    /// Gives the number of elements of a runtime-sized array.
    Length {
        view: View,
    },
    /// Takes one of two parts.
    If {
        cond: Operand,
        yes: Items<CoreStatement>,
        no: Items<CoreStatement>,
    },
    /// Takes one of many parts.
    Switch {
        selector: Operand,
        parts: Items<SwitchPart>,
    },
    /// Takes its body and then its continuing part, again and again until it is left.
    Loop {
        body: Items<CoreStatement>,
        continuing: Items<CoreStatement>,
        leave: Option<Operand>,
    },
    Break,
    Continue,
    /// Ends the function, with a value where it has a result.
    Return {
        value: Option<Operand>,
    },
}
