//! What views name.

ghost use Rattle.std.specs.Prelude.{◌≡◌, ◌↔◌, Contains, IsTrue, Some};
ghost use Rattle.shade_core.specs.Types.{type_at};
ghost use Rattle.shade_core.specs.Views.{IsIndex, PointsTo};
ghost use Rattle.shade_core.specs.declared.statement.Base.TheVariants as base;
ghost use Rattle.shade_core.specs.declared.statement.ViewStep.TheVariants as step;
ghost use Rattle.shade_typed.specs.Answers.{Answers};
ghost use Rattle.shade_typed.specs.Contexts.{StandsAt, type_in};
ghost use Rattle.shade_typed.specs.Places.{Begins, Lead, Names, NamesValue, PlaceStands, Steps, origin_in};

use crate::context::{Context, Typed};
use crate::operands::operand_type;
use crate::parts::{member_type, part_type};
use shade_core::{Base, CoreParam, Operand, View, ViewStep};
use shade_values::{Access, Scalar, ShadeType, Space};

/// A place of memory: its space, what may be done with it, and its type.
#[derive(Clone, Copy, Debug, PartialEq, Eq)]
pub struct Place {
    pub space: Space,
    pub access: Access,
    pub at: Typed,
}

fn local_place(context: &Context, number: u32) -> Option<Place>
    ensures place { Answers (Begins context.now (base.Local number)) (origin_in result) }
    ensures stands { PlaceStands context.now.shader.types result }
{
    let Some(id) = context.local(number) else {
        return None;
    };
    let Some(at) = context.typed(id) else {
        return None;
    };
    Some(Place {
        space: Space::Function,
        access: Access::ReadWrite,
        at,
    })
}

fn root_place(context: &Context, number: u32) -> Option<Place>
    ensures place { Answers (Begins context.now (base.Module number)) (origin_in result) }
    ensures stands { PlaceStands context.now.shader.types result }
{
    let Some(root) = context.root(number) else {
        return None;
    };
    let Some(at) = context.typed(root.ty) else {
        return None;
    };
    Some(Place {
        space: root.space,
        access: root.access,
        at,
    })
}

/// What a pointer of a type leads to.
pub fn pointee(context: &Context, pointer: Option<ShadeType>) -> Option<Place>
    ensures place { Answers (PointsTo context.now.shader.types pointer) (origin_in result) }
    ensures stands { PlaceStands context.now.shader.types result }
{
    let Some(ShadeType::Pointer(space, id, access)) = pointer else {
        return None;
    };
    let Some(at) = context.typed(id) else {
        return None;
    };
    Some(Place { space, access, at })
}

fn pointee_place(context: &Context, number: u32) -> Option<Place>
    ensures place { Answers (Begins context.now (base.Pointee number)) (origin_in result) }
    ensures stands { PlaceStands context.now.shader.types result }
{
    match context.param(number) {
        Some(CoreParam::Pointer(_, id)) => pointee(context, context.types().get(id)),
        _ => None,
    }
}

fn base_place(context: &Context, base: Base) -> Option<Place>
    ensures place { Answers (Begins context.now base) (origin_in result) }
    ensures stands { PlaceStands context.now.shader.types result }
{
    match base {
        Base::Local(number) => local_place(context, number),
        Base::Module(number) => root_place(context, number),
        Base::Pointee(number) => pointee_place(context, number),
    }
}

/// Whether a type is one of an index.
pub fn is_index(ty: ShadeType) -> bool
    ensures { IsTrue result ↔ IsIndex ty }
{
    ty == ShadeType::Plain(Scalar::I32) || ty == ShadeType::Plain(Scalar::U32)
}

fn index_type(context: &Context, index: &Operand, from: ShadeType) -> Option<Typed>
    ensures found { Answers (Steps context.now (step.Index index.now) from) (type_in result) }
    ensures stands { StandsAt context.now.shader.types result }
{
    let Some(ty) = operand_type(context, index) else {
        return None;
    };
    if !is_index(ty) {
        return None;
    }
    part_type(context, from)
}

fn step_type(context: &Context, step: &ViewStep, from: ShadeType) -> Option<Typed>
    requires { Contains context.now.shader.types.types from }
    ensures found { Answers (Steps context.now step.now from) (type_in result) }
    ensures stands { StandsAt context.now.shader.types result }
{
    match step {
        ViewStep::Member(place) => member_type(context, from, *place),
        ViewStep::Index(index) => index_type(context, index, from),
    }
}

/// Where steps lead from a type.
fn steps_type(context: &Context, steps: &[ViewStep], from: Typed) -> Option<Typed>
    requires { type_at context.now.shader.types from.id ≡ Some from.ty }
    ensures found { Answers (Lead context.now steps.now from.ty) (type_in result) }
    ensures stands { StandsAt context.now.shader.types result }
{
    let mut at = from;
    'steps: for step in steps {
        let Some(next) = step_type(context, step, at.ty) else {
            return None;
        };
        at = next;
    }
    Some(at)
}

/// What a view names. Takes no memory.
pub fn place_of(context: &Context, view: &View) -> Option<Place>
    ensures place { Answers (Names context.now view.now) (origin_in result) }
    ensures stands { PlaceStands context.now.shader.types result }
{
    let Some(begin) = base_place(context, view.base) else {
        return None;
    };
    let Some(at) = steps_type(context, view.steps.as_slice(), begin.at) else {
        return None;
    };
    Some(Place {
        space: begin.space,
        access: begin.access,
        at,
    })
}

/// What a view of a value names. Takes no memory.
pub fn value_place(context: &Context, view: &View) -> Option<Place>
    ensures place { Answers (NamesValue context.now view.now) (origin_in result) }
    ensures stands { PlaceStands context.now.shader.types result }
{
    let Some(place) = place_of(context, view) else {
        return None;
    };
    if !context.types().is_held(place.at.id) {
        return None;
    }
    Some(place)
}
