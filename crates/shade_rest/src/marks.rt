//! What a lane has left to run.

ghost use Rattle.std.specs.Prelude.{◌≡◌, ◌+◌, ◌≤◌, length, true, IfOk, vec_capacity};
ghost use Rattle.shade_core.specs.Code.{code_of};
ghost use Rattle.shade_frames.specs.Control.{back, break_to, caller_of, continue_to, halt, in_body, in_switch, next, return_to, seq};
ghost use Rattle.shade_rest.specs.Marks.{behind, depth, has_first, left, loop_of, place, Stands, turn_of};

use crate::mark::{Here, Mark, OpenLoop};
use shade_core::{Argument, CoreStatement};
use std::alloc::{AllocError, Global};

/// A stack of all that is open, the innermost last. It is made with room for as many marks as are ever open at once, and takes no more memory:
/// what opens something asks for that room.
#[derive(Drop)]
pub struct Marks<'m> {
    pub(crate) stack: Vec<Mark<'m>>,
}

impl<'m> Marks<'m> {
    /// All of the statements of a body, with room for so many marks. An error comes where memory for them is wanting.
    pub fn begin(
        alloc: Global,
        body: &'m [CoreStatement],
        room: usize,
    ) -> Result<Marks<'m>, AllocError>
        requires { 1 ≤ room }
        ensures left { IfOk result (λ marks. left marks.stack.items ≡ seq (code_of body.now) halt) }
        ensures room { IfOk result (λ marks. room ≤ vec_capacity marks.stack) }
    {
        let mut stack = Vec::with_capacity(alloc, room)?;
        stack.push_reserved(Mark::List(body));
        Ok(Marks { stack })
    }

    /// Closes what is done, and says where the lane stands: these are the moves that take no step. Takes no memory.
    pub fn here(&mut self) -> Here<'m>
        requires { length self.old.stack.items + 2 ≤ vec_capacity self.old.stack }
        ensures place { place self.new.stack.items ≡ place self.old.stack.items }
        ensures stands { Stands result self.new.stack.items }
        ensures room { vec_capacity self.new.stack ≡ vec_capacity self.old.stack }
    {
        'done: while let Some(mark) = self.stack.pop() {
            match mark {
                Mark::List(list) => {
                    if let Some((first, _)) = list.split_first() {
                        self.stack.push_reserved(mark);
                        return Here::First(first);
                    }
                }
                Mark::Body(body, turn) => return self.go_on(body, turn),
                Mark::Continuing(body, turn) => {
                    self.stack.push_reserved(mark);
                    return Here::Turning(body, turn);
                }
                Mark::Switch => {}
                Mark::Call(_, _, _) => {
                    self.stack.push_reserved(mark);
                    return Here::Falling;
                }
            }
        }
        Here::Over
    }

    /// Goes on to the continuing part of a loop whose body is done.
    fn go_on(&mut self, body: OpenLoop<'m>, turn: u32) -> Here<'m>
        requires { length self.old.stack.items + 2 ≤ vec_capacity self.old.stack }
        ensures place { place self.new.stack.items ≡ next (in_body (loop_of body.entry) turn (left self.old.stack.items)) }
        ensures stands { Stands result self.new.stack.items }
        ensures room { vec_capacity self.new.stack ≡ vec_capacity self.old.stack }
    {
        self.stack.push_reserved(Mark::Continuing(body, turn));
        match body.continuing.split_first() {
            Some((first, _)) => {
                self.stack.push_reserved(Mark::List(body.continuing));
                Here::First(first)
            }
            None => Here::Turning(body, turn),
        }
    }

    /// Leaves the first statement behind. Takes no memory.
    pub fn pass(&mut self)
        requires first { has_first self.old.stack.items ≡ true }
        ensures left { left self.new.stack.items ≡ behind self.old.stack.items }
        ensures count { length self.new.stack.items ≡ length self.old.stack.items }
        ensures room { vec_capacity self.new.stack ≡ vec_capacity self.old.stack }
    {
        if let Some(Mark::List(list)) = self.stack.pop() {
            if let Some((_, later)) = list.split_first() {
                self.stack.push_reserved(Mark::List(later));
            }
        }
    }

    /// Leaves the first statement behind, and opens a part of it. Takes no memory.
    pub fn enter_part(&mut self, part: &'m [CoreStatement])
        requires first { has_first self.old.stack.items ≡ true }
        requires room { length self.old.stack.items + 2 ≤ vec_capacity self.old.stack }
        ensures left { left self.new.stack.items ≡ seq (code_of part.now) (behind self.old.stack.items) }
        ensures room { vec_capacity self.new.stack ≡ vec_capacity self.old.stack }
    {
        self.pass();
        self.stack.push_reserved(Mark::List(part));
    }

    /// Leaves the first statement, a switch, behind, and opens a part of it. Takes no memory.
    pub fn enter_switch(&mut self, part: &'m [CoreStatement])
        requires first { has_first self.old.stack.items ≡ true }
        requires room { length self.old.stack.items + 2 ≤ vec_capacity self.old.stack }
        ensures left { left self.new.stack.items ≡ seq (code_of part.now) (in_switch (behind self.old.stack.items)) }
        ensures room { vec_capacity self.new.stack ≡ vec_capacity self.old.stack }
    {
        self.pass();
        self.stack.push_reserved(Mark::Switch);
        self.stack.push_reserved(Mark::List(part));
    }

    /// Leaves the first statement, a loop, behind, and opens its first turn. Takes no memory.
    pub fn enter_loop(&mut self, body: OpenLoop<'m>)
        requires first { has_first self.old.stack.items ≡ true }
        requires room { length self.old.stack.items + 2 ≤ vec_capacity self.old.stack }
        ensures left { left self.new.stack.items ≡ seq (code_of body.entry.body.now) (in_body (loop_of body.entry) 0 (behind self.old.stack.items)) }
        ensures room { vec_capacity self.new.stack ≡ vec_capacity self.old.stack }
    {
        self.pass();
        self.stack.push_reserved(Mark::Body(body, 0));
        self.stack.push_reserved(Mark::List(body.body));
    }

    /// Leaves the first statement, a call of a function with this body, behind, and opens the function. Takes no memory.
    pub fn enter_call(
        &mut self,
        number: u32,
        function: u32,
        args: &'m [Argument],
        body: &'m [CoreStatement],
    )
        requires first { has_first self.old.stack.items ≡ true }
        requires room { length self.old.stack.items + 2 ≤ vec_capacity self.old.stack }
        ensures left { left self.new.stack.items ≡ seq (code_of body.now) (back number function args.now (behind self.old.stack.items)) }
        ensures room { vec_capacity self.new.stack ≡ vec_capacity self.old.stack }
    {
        self.pass();
        self.stack.push_reserved(Mark::Call(number, function, args));
        self.stack.push_reserved(Mark::List(body));
    }

    /// Leaves the nearest loop or switch; a function that has none of its own stays. Takes no memory.
    pub fn leave(&mut self)
        ensures left { left self.new.stack.items ≡ break_to (left self.old.stack.items) }
        ensures room { vec_capacity self.new.stack ≡ vec_capacity self.old.stack }
    {
        'outwards: while let Some(mark) = self.stack.pop() {
            match mark {
                Mark::List(_) => {}
                Mark::Body(_, _) | Mark::Continuing(_, _) | Mark::Switch => return,
                Mark::Call(_, _, _) => {
                    self.stack.push_reserved(mark);
                    return;
                }
            }
        }
    }

    /// Goes to the continuing part of the nearest loop; a function that has none of its own stays. Takes no memory.
    pub fn skip(&mut self)
        ensures left { left self.new.stack.items ≡ continue_to (left self.old.stack.items) }
        ensures room { vec_capacity self.new.stack ≡ vec_capacity self.old.stack }
    {
        'outwards: while let Some(mark) = self.stack.pop() {
            match mark {
                Mark::List(_) | Mark::Switch => {}
                Mark::Body(_, _) | Mark::Continuing(_, _) | Mark::Call(_, _, _) => {
                    self.stack.push_reserved(mark);
                    return;
                }
            }
        }
    }

    /// Closes the function, and says which call it answers: none where it is the entry. Takes no memory.
    pub fn finish(&mut self) -> Option<u32>
        ensures left { left self.new.stack.items ≡ return_to (left self.old.stack.items) }
        ensures caller { result ≡ caller_of (left self.old.stack.items) }
        ensures room { vec_capacity self.new.stack ≡ vec_capacity self.old.stack }
    {
        'outwards: while let Some(mark) = self.stack.pop() {
            if let Mark::Call(number, _, _) = mark {
                return Some(number);
            }
        }
        None
    }

    /// At the end of a turn: leaves the loop, or opens its next turn. Takes no memory.
    pub fn turn(&mut self, leaves: bool)
        requires { length self.old.stack.items + 2 ≤ vec_capacity self.old.stack }
        ensures left { left self.new.stack.items ≡ turn_of leaves (left self.old.stack.items) }
        ensures room { vec_capacity self.new.stack ≡ vec_capacity self.old.stack }
    {
        match self.stack.pop() {
            Some(Mark::Continuing(body, turn)) => {
                if !leaves {
                    self.stack
                        .push_reserved(Mark::Body(body, turn.wrapping_add(1)));
                    self.stack.push_reserved(Mark::List(body.body));
                }
            }
            Some(mark) => self.stack.push_reserved(mark),
            None => {}
        }
    }
}

/// A stack is as long as what it leaves is deep: so what a call leaves tells for how many marks there is room behind it.
pub fn marks_are_depth(marks: &Marks<'_>)
    ensures { length marks.now.stack.items ≡ depth (left marks.now.stack.items) }
{}
