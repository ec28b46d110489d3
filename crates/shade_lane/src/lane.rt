//! A lane and its steps.

ghost use Rattle.std.specs.Prelude.{◌≡◌, ℕ, ◌<◌, ◌^◌, [], ◌∷◌, length, map, slice_get, true, Some, IfOk, OnOk, OnErr};
ghost use Rattle.shade_core.specs.declared.module.CoreFunction.{CoreFunction as TheFunction};
ghost use Rattle.shade_core.specs.Rules.{has_rules};
ghost use Rattle.shade_lane.specs.Lane.{applied as applied_of, global_part, is_true as is_true_of, operand_value as value_of, put};
ghost use Rattle.shade_lane.specs.Members.{begin_member, freed, is_able, is_waiting, moved};
ghost use Rattle.shade_lane.specs.declared.state.LaneState.TheVariants.{Waiting as waiting};
ghost use Rattle.shade_lane.specs.Seen.{event_by, below_of, finished, has_first, HasFirst, later_of, member_of, part_of, slot_value, taken, went};

use crate::builtins::Builtins;
use crate::rest::Rest;
use crate::state::{Instance, LaneState};
use crate::values::{applied, is_true, operand_value, param_values};
use shade_core::{Act, CoreFunction, CoreModule, CoreStatement, Operand};
use shade_mem::Memory;
use shade_values::{Op, Space, Touch, Value};
use std::alloc::{AllocError, Global};
use std::marker::Model;
use std::mem;

/// What a step of a lane did.
#[derive(Clone, Copy, Debug, PartialEq, Eq)]
pub enum LaneEvent {
    /// It ran a statement, which touched these words of shared memory.
    Ran(Option<Touch>),
    /// It came to wait.
    Arrives,
    /// It ended.
    Ended,
}

/// A lane of an entry, which borrows the module that it runs.
#[derive(Drop)]
pub struct Lane<'m> {
    entry: u32,
    params: Vec<Option<Value>>,
    // The value that each statement gave last; a statement past the end gave none.
    slots: Vec<Option<Value>>,
    rest: Rest<'m>,
    state: LaneState,
}

impl<'m> Model for Lane<'m> {
    ghost use Rattle.shade_lane.specs.Seen.{Seen, seen_code};

    ghost Value = { Seen };

    ghost coded = { seen_code };

    ghost view = { λ l. record { entry = l.entry; params = l.params.items; slots = l.slots.items; lists = l.rest; state = l.state } };
}

impl<'m> Lane<'m> {
    /// The lane of an entry of a module at its start. The entry has rules; `builtins` are its surroundings, in which the
    /// lane's position among all lanes is below 2^32 in each direction.
    pub fn begin(
        alloc: Global,
        module: &'m CoreModule,
        entry: u32,
        builtins: &Builtins,
    ) -> Result<Lane<'m>, AllocError>
        requires entry { entry < length «module».now.functions }
        requires rules { (f : TheFunction) → slice_get «module».now.functions entry ≡ Some f → has_rules f ≡ true }
        requires builtins { (i : ℕ) → i < 3 → global_part builtins.now i < 2 ^ 32 }
        ensures { IfOk result (λ lane. (f : TheFunction) → slice_get «module».now.functions entry ≡ Some f → member_of lane ≡ begin_member entry f builtins.now) }
    {
        let functions = module.functions.as_slice();
        Lane::of(alloc, &functions[entry as usize], entry, builtins)
    }

    /// The lane of an entry that has rules at its start.
    pub fn of(
        alloc: Global,
        function: &'m CoreFunction,
        entry: u32,
        builtins: &Builtins,
    ) -> Result<Lane<'m>, AllocError>
        requires rules { has_rules function.now ≡ true }
        requires builtins { (i : ℕ) → i < 3 → global_part builtins.now i < 2 ^ 32 }
        ensures { IfOk result (λ lane. member_of lane ≡ begin_member entry function.now builtins.now) }
    {
        Ok(Lane {
            entry,
            params: param_values(alloc, builtins, function.params.as_slice())?,
            slots: Vec::new(alloc),
            rest: Rest::begin(alloc, function.body.as_slice())?,
            state: LaneState::Able,
        })
    }

    /// One step of a lane that may step. The first form has no statement that touches memory. Where memory is wanting
    /// the lane is as before.
    pub fn step(&mut self, memory: &mut Memory) -> Result<LaneEvent, AllocError>
        requires { is_able self.old.state ≡ true }
        ensures ok { OnOk result (member_of self.new ≡ moved (member_of self.old)) }
        ensures event { IfOk result (λ e. e ≡ event_by self.new.state) }
        ensures memory { memory.new ≡ memory.old }
        ensures err { OnErr result (member_of self.new ≡ member_of self.old) }
    {
        let _ = memory;
        if let Some(statement) = self.rest.first() {
            self.take(statement)?;
        }
        Ok(self.finish())
    }

    /// Whether the lane may step, waits or has ended. Takes no memory.
    pub fn state(&self) -> &LaneState
        ensures { result.now ≡ self.now.state }
    {
        &self.state
    }

    /// Lets a lane that waits step again, and gives the state that it was in. Takes no memory.
    pub fn resume(&mut self) -> LaneState
        requires { is_waiting self.old.state ≡ true }
        ensures state { result ≡ self.old.state }
        ensures freed { member_of self.new ≡ freed (member_of self.old) }
    {
        mem::replace(&mut self.state, LaneState::Able)
    }

    /// Runs the first statement that is left.
    fn take(&mut self, statement: &'m CoreStatement) -> Result<(), AllocError>
        requires able { is_able self.old.state ≡ true }
        requires first { HasFirst statement.now self.old.lists }
        ensures ok { OnOk result (member_of self.new ≡ taken (member_of self.old)) }
        ensures err { OnErr result (member_of self.new ≡ member_of self.old) }
    {
        match &statement.act {
            Act::Set { op, args } => self.set(statement.number, *op, args.as_slice())?,
            Act::Barrier { space, .. } => self.wait(statement.number, *space)?,
            Act::If { cond, yes, no } => self.branch(cond, yes.as_slice(), no.as_slice())?,
            Act::Return { .. } => self.rest.clear(),
            _ => self.rest.pass(),
        }
        Ok(())
    }

    /// Keeps what an operation gives as the value of the first statement, which has this number.
    fn set(&mut self, number: u32, op: Op, args: &[Operand]) -> Result<(), AllocError>
        requires { has_first self.old.lists ≡ true }
        ensures ok { OnOk result (member_of self.new ≡ went (later_of self.old.lists ∷ below_of self.old.lists) (put (slot_value self.old.slots) number (applied_of op (map (value_of self.old.params (slot_value self.old.slots)) args.now))) (member_of self.old)) }
        ensures err { OnErr result (member_of self.new ≡ member_of self.old) }
    {
        let alloc = *self.slots.allocator();
        let value = applied(
            alloc,
            op,
            args,
            self.params.as_slice(),
            self.slots.as_slice(),
        )?;
        grow(&mut self.slots, number)?;
        place(&mut self.slots, number, value);
        self.rest.pass();
        Ok(())
    }

    /// Waits at the first statement, a barrier of a space, which has this number.
    fn wait(&mut self, number: u32, space: Space) -> Result<(), AllocError>
        requires { has_first self.old.lists ≡ true }
        ensures ok { OnOk result (self.new ≡ record self.old { lists = later_of self.old.lists ∷ below_of self.old.lists; state = waiting space (self.old.entry ∷ number ∷ 0 ∷ []) }) }
        ensures err { OnErr result (self.new ≡ self.old) }
    {
        let words = Vec::from_slice(*self.slots.allocator(), &[self.entry, number, 0])?;
        self.rest.pass();
        self.state = LaneState::Waiting(space, Instance::from_vec(words));
        Ok(())
    }

    /// Opens the part of the first statement, an If, that its condition chooses.
    fn branch(
        &mut self,
        cond: &Operand,
        first: &'m [CoreStatement],
        second: &'m [CoreStatement],
    ) -> Result<(), AllocError>
        requires { has_first self.old.lists ≡ true }
        ensures ok { OnOk result (self.new ≡ record self.old { lists = part_of (is_true_of (value_of self.old.params (slot_value self.old.slots) cond.now)) first.now second.now ∷ later_of self.old.lists ∷ below_of self.old.lists }) }
        ensures err { OnErr result (self.new ≡ self.old) }
    {
        let value = operand_value(self.params.as_slice(), self.slots.as_slice(), cond);
        let part = if is_true(value) { first } else { second };
        self.rest.enter(part)
    }

    /// Ends the lane where it may step and nothing is left, and says what the step did.
    fn finish(&mut self) -> LaneEvent
        ensures state { member_of self.new ≡ finished (member_of self.old) }
        ensures event { result ≡ event_by self.new.state }
    {
        match self.state {
            LaneState::Able => {
                if self.rest.first().is_some() {
                    return LaneEvent::Ran(None);
                }
                self.state = LaneState::Ended;
                LaneEvent::Ended
            }
            LaneState::Waiting(_, _) => LaneEvent::Arrives,
            LaneState::Ended => LaneEvent::Ended,
        }
    }
}

/// Makes a place for the value of the statement with this number.
#[tactic(auto, using(crate::proofs::StepLaws::grown))]
fn grow(slots: &mut Vec<Option<Value>>, number: u32) -> Result<(), AllocError>
    ensures same { slot_value slots.new.items ≡ slot_value slots.old.items }
    ensures room { OnOk result (number < length slots.new.items) }
{
    'room: while slots.len() <= number as usize {
        slots.push(None)?;
    }
    Ok(())
}

/// Puts a value in its place.
#[tactic(auto, using(crate::proofs::StepLaws::placed))]
fn place(slots: &mut Vec<Option<Value>>, number: u32, value: Option<Value>)
    requires { number < length slots.old.items }
    ensures { slot_value slots.new.items ≡ put (slot_value slots.old.items) number value }
{
    slots[number as usize] = value;
}
