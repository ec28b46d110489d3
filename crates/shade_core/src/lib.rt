//! The core form: what a checked shader is lowered to, and what the analyses and the machine read.
//!
//! A module has functions; a function has a body of statements, numbered from 0 in structure order. The definitions
//! over control stand on `Code` (`specs/Code.antt`), one inductive type that a body is read as.
#![tactic(auto)]

mod behaviour;
mod behaviours;
mod control;
mod module;
mod rules;
mod statement;

pub use behaviour::{Behaviour, act_behaviour, list_behaviour};
pub use behaviours::{BehaviourLists, Behaviours};
pub use control::ControlFault;
pub use module::{
    BuiltinInput, CoreFunction, CoreModule, CoreParam, CoreParams, Functions, Root, Roots, Site,
    TypeIds,
};
pub use rules::{all_have_rules, has_rules};
pub use statement::{
    Act, Argument, Arguments, Base, CoreStatement, Keys, Operand, Operands, Statements, SwitchPart,
    SwitchParts, View, ViewStep, ViewSteps,
};
