//! What is known where a statement is asked.

ghost use Rattle.std.specs.Prelude.{◌≡◌, ◌∷◌, ◌++◌, [], All, IfSome, IsTrue, OnErr, OnOk, Some, option_copied, slice_get};
ghost use Rattle.shade_core.specs.Types.{type_at};
ghost use Rattle.shade_typed.specs.Answers.{Answers};
ghost use Rattle.shade_typed.specs.Contexts.{GivesValue, IdStands, IsThere, StandsAt, type_in, value_types};
ghost use Rattle.shade_typed.specs.Simple.{AreSimple, is_simple};
ghost use Rattle.shade_values.specs.Sound.{IsSound};

use crate::simple::find_simple;
use shade_core::{CoreFunction, CoreModule, CoreParam, Root};
use shade_shape::Types;
use shade_values::{ShadeType, TypeId};
use std::alloc::{AllocError, Global};
use std::marker::Model;

/// A type of the table, with its id.
#[derive(Clone, Copy, Debug, PartialEq, Eq)]
pub struct Typed {
    pub id: TypeId,
    pub ty: ShadeType,
}

/// A function of a module, and the types of the values that its statements gave so far. Contracts see the module, the function and
/// the types.
#[derive(Drop)]
pub struct Context<'m> {
    types: &'m Types<'m>,
    simple: &'m [TypeId],
    module: &'m CoreModule,
    function: &'m CoreFunction,
    known: Vec<Option<TypeId>>,
}

impl<'m> Model for Context<'m> {
    ghost use Rattle.shade_typed.specs.Contexts.{ContextView, IsContext, context_code, value_types};

    ghost Value = { ContextView };

    ghost coded = { context_code };

    ghost view = { λ c. record { shader = c.module.now; function = c.function.now; values = value_types c.module.now.types c.known.items } };

    ghost invariant = { λ c. IsContext c.module.now.types c.types.now c.simple.now c.known.items };
}

impl<'m> Context<'m> {
    /// A function before its first statement, over the types of its module and the ids of the simple ones. Takes no memory.
    pub fn new(
        alloc: Global,
        types: &'m Types<'m>,
        simple: &'m [TypeId],
        module: &'m CoreModule,
        function: &'m CoreFunction,
    ) -> Context<'m>
        requires same { types.now ≡ «module».now.types }
        requires simple { AreSimple types.now simple.now }
        ensures { result ≡ record { shader = «module».now; function = function.now; values = [] } }
    {
        let _sound = types.table().count();
        Context {
            types,
            simple,
            module,
            function,
            known: Vec::new(alloc),
        }
    }

    /// The types of the module. Takes no memory.
    pub fn types(&self) -> &Types
        ensures same { result.now ≡ self.now.shader.types }
        ensures sound { IsSound self.now.shader.types }
    {
        self.types
    }

    /// The type with an id, if there is one. Takes no memory.
    pub fn typed(&self, id: TypeId) -> Option<Typed>
        ensures found { type_in result ≡ type_at self.now.shader.types id }
        ensures id { IfSome result (λ found. found.id ≡ id) }
    {
        let ty = self.types.get(id)?;
        Some(Typed { id, ty })
    }

    /// A scalar, a vector or the result of an exchange, if the table has it. Takes no memory.
    pub fn find(&self, ty: ShadeType) -> Option<Typed>
        requires { IsTrue (is_simple ty) }
        ensures found { Answers (IsThere self.now.shader.types ty) (type_in result) }
        ensures stands { StandsAt self.now.shader.types result }
    {
        let id = find_simple(self.types.table(), self.simple, ty)?;
        Some(Typed { id, ty })
    }

    /// The parameter with a number, if there is one. Takes no memory.
    pub fn param(&self, number: u32) -> Option<CoreParam>
        ensures { result ≡ slice_get self.now.function.params number }
    {
        match self.function.params.as_slice().get(number as usize) {
            Some(param) => Some(*param),
            None => None,
        }
    }

    /// The type of the local with a number, if there is one. Takes no memory.
    pub fn local(&self, number: u32) -> Option<TypeId>
        ensures { result ≡ slice_get self.now.function.locals number }
    {
        match self.function.locals.as_slice().get(number as usize) {
            Some(id) => Some(*id),
            None => None,
        }
    }

    /// The type of the result of the function, if it has one. Takes no memory.
    pub fn result(&self) -> Option<TypeId>
        ensures { result ≡ self.now.function.result }
    {
        self.function.result
    }

    /// The root with a number, if there is one. Takes no memory.
    pub fn root(&self, number: u32) -> Option<&Root>
        ensures { option_copied result ≡ slice_get self.now.shader.roots number }
    {
        self.module.roots.get(number as usize)
    }

    /// The function with a number, if there is one. Takes no memory.
    pub fn callee(&self, number: u32) -> Option<&CoreFunction>
        ensures { option_copied result ≡ slice_get self.now.shader.functions number }
    {
        self.module.functions.get(number as usize)
    }

    /// The type of the value of the statement with a number, if it gave one. Takes no memory.
    pub fn value(&self, number: u32) -> Option<Typed>
        ensures found { Answers (GivesValue self.now.values number) (type_in result) }
        ensures stands { StandsAt self.now.shader.types result }
    {
        let known = self.known.get(number as usize)?;
        let id = (*known)?;
        let ty = self.types.get(id)?;
        Some(Typed { id, ty })
    }

    /// Keeps the type of the value of the next statement, or that it gave none. Where memory is wanting nothing is kept.
    pub fn keep(&mut self, value: Option<Typed>) -> Result<(), AllocError>
        requires { StandsAt self.old.shader.types value }
        ensures ok { OnOk result (self.new ≡ record { shader = self.old.shader; function = self.old.function; values = self.old.values ++ type_in value ∷ [] }) }
        ensures err { OnErr result (self.new ≡ self.old) }
    {
        let id = match value {
            Some(found) => Some(found.id),
            None => None,
        };
        self.known.push(id)?;
        Ok(())
    }

    /// The ids of the types of the values. Takes no memory.
    pub fn into_known(self) -> Vec<Option<TypeId>>
        ensures types { value_types self.entry.shader.types result.items ≡ self.entry.values }
        ensures stand { All (IdStands self.entry.shader.types) result.items }
    {
        self.known
    }
}
