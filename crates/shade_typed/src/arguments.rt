//! Arguments of calls.

ghost use Rattle.std.specs.Prelude.{◌≡◌, ◌↔◌, IsTrue};
ghost use Rattle.shade_core.specs.declared.statement.Argument.TheVariants as argument;
ghost use Rattle.shade_typed.specs.Places.{AllSuit, Suits, origin_of};

use crate::context::Context;
use crate::operands::has_wanted;
use crate::places::{Place, place_of, pointee};
use crate::simple::is_same;
use shade_core::{Argument, CoreParam, Operand, View};

fn value_suits(context: &Context, operand: &Operand, param: CoreParam) -> bool
    ensures { IsTrue result ↔ Suits context.now (argument.Plain operand.now) param }
{
    match param {
        CoreParam::Plain(id) => has_wanted(context, operand, context.types().get(id)),
        CoreParam::Input(_) | CoreParam::Pointer(_, _) => false,
    }
}

/// Whether two places have one space, one access and one type.
fn are_alike(one: Place, other: Place) -> bool
    ensures { IsTrue result ↔ (origin_of one ≡ origin_of other) }
{
    if one.space != other.space {
        return false;
    }
    if one.access != other.access {
        return false;
    }
    is_same(one.at.ty, other.at.ty)
}

fn view_suits(context: &Context, view: &View, param: CoreParam) -> bool
    ensures { IsTrue result ↔ Suits context.now (argument.Pointer view.now) param }
{
    let CoreParam::Pointer(_, id) = param else {
        return false;
    };
    let Some(wanted) = pointee(context, context.types().get(id)) else {
        return false;
    };
    let Some(place) = place_of(context, view) else {
        return false;
    };
    are_alike(place, wanted)
}

fn suits(context: &Context, argument: &Argument, param: CoreParam) -> bool
    ensures { IsTrue result ↔ Suits context.now argument.now param }
{
    match argument {
        Argument::Plain(operand) => value_suits(context, operand, param),
        Argument::Pointer(view) => view_suits(context, view, param),
    }
}

/// Whether each argument is one for the parameter at its place. Takes no memory.
pub fn all_suit(context: &Context, arguments: &[Argument], params: &[CoreParam]) -> bool
    ensures { IsTrue result ↔ AllSuit context.now arguments.now params.now }
{
    if arguments.len() != params.len() {
        return false;
    }
    let mut place: usize = 0;
    'arguments: for argument in arguments {
        if !suits(context, argument, params[place]) {
            return false;
        }
        place += 1;
    }
    true
}
