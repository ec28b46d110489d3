//! The types of the values of a function.

ghost use Rattle.std.specs.Prelude.{◌≡◌, ◌↔◌, All, IfOk, IfSome, IsTrue, map, option_map};
ghost use Rattle.shade_core.specs.Code.{code_of};
ghost use Rattle.shade_core.specs.Fits.{AllFit, IsTyped};
ghost use Rattle.shade_core.specs.Standing.{by_itself, statements};
ghost use Rattle.shade_typed.specs.Answers.{Answers};
ghost use Rattle.shade_typed.specs.Contexts.{IdStands, value_types};
ghost use Rattle.shade_typed.specs.Sets.{MayLeave};
ghost use Rattle.shade_typed.specs.Simple.{AreSimple};
ghost use Rattle.shade_typed.specs.Values.{IsSameFunction, kept_values};

use crate::acts::{act_fit, may_leave};
use crate::context::Context;
use shade_core::{CoreFunction, CoreModule, CoreStatement};
use shade_shape::{Types, statements_of};
use shade_values::TypeId;
use std::alloc::{AllocError, Global};

/// By statement number, the id of the type of its value, if it gives one.
pub type ValueIds = Vec<Option<TypeId>>;

/// Takes statements one after another, each with the types of the values before it, and says whether all of them may stand there.
fn keep_all(
    alloc: Global,
    context: &mut Context,
    listed: &[&CoreStatement],
) -> Result<bool, AllocError>
    ensures fit { IfOk result (λ b. Answers (AllFit context.old.shader context.old.function context.old.values (map (λ s. by_itself s.now) listed.now)) (kept_values b context.new.values)) }
    ensures same { IfOk result (λ b. IsSameFunction context.old context.new) }
{
    'statements: for statement in listed {
        let Some(value) = act_fit(alloc, context, &statement.act)? else {
            return Ok(false);
        };
        context.keep(value)?;
    }
    Ok(true)
}

/// Whether each operand with which a loop may be left is a truth.
fn all_may_leave(context: &Context, listed: &[&CoreStatement]) -> bool
    ensures { IsTrue result ↔ All (λ s. MayLeave context.now s.head) (map (λ s. by_itself s.now) listed.now) }
{
    'statements: for statement in listed {
        if !may_leave(context, &statement.act) {
            return false;
        }
    }
    true
}

/// The types of the values of a function, over the types of its module and the ids of the simple ones: by statement number, the id
/// of the type, or None for a statement without a value. None in place of the list is exactly where some statement takes other types
/// than it may. Takes memory for the list of statements and for the ids; an error comes only where it is wanting.
pub fn types_of_values<'m>(
    alloc: Global,
    types: &'m Types<'m>,
    simple: &'m [TypeId],
    module: &'m CoreModule,
    function: &'m CoreFunction,
) -> Result<Option<ValueIds>, AllocError>
    requires same { types.now ≡ «module».now.types }
    requires simple { AreSimple types.now simple.now }
    ensures typed { IfOk result (λ found. Answers (IsTyped «module».now function.now (statements (code_of function.now.body))) (option_map (λ ids. value_types «module».now.types ids.items) found)) }
    ensures stand { IfOk result (λ found. IfSome found (λ ids. All (IdStands «module».now.types) ids.items)) }
{
    let mut context = Context::new(alloc, types, simple, module, function);
    let listed = statements_of(alloc, &function.body)?;
    if !keep_all(alloc, &mut context, &listed)? {
        return Ok(None);
    }
    if !all_may_leave(&context, &listed) {
        return Ok(None);
    }
    Ok(Some(context.into_known()))
}
