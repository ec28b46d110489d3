//! Behaviours.

ghost use Rattle.std.specs.Prelude.{◌≡◌, map};
ghost use Rattle.shade_core.specs.Behaviour.{behaviour, joined, in_turn, after_switch, after_loop, goes_on};
ghost use Rattle.shade_core.specs.Code.{act_code, part_code, parts_from, code_of, done};

use crate::statement::{Act, CoreStatement, SwitchPart};
use sqlite_items::Items;

/// How control may go on after a statement: the set of the ways that are true.
#[derive(Clone, Copy, Debug, PartialEq, Eq)]
pub struct Behaviour {
    pub next: bool,
    pub breaks: bool,
    pub continues: bool,
    pub returns: bool,
}

impl Behaviour {
    /// No way at all.
    pub const NONE: Behaviour = Behaviour {
        next: false,
        breaks: false,
        continues: false,
        returns: false,
    };
    /// Control goes on to the next statement alone.
    pub const NEXT: Behaviour = Behaviour {
        next: true,
        ..Behaviour::NONE
    };
    /// Control leaves the nearest loop or switch.
    pub const BREAK: Behaviour = Behaviour {
        breaks: true,
        ..Behaviour::NONE
    };
    /// Control goes to the continuing part of the nearest loop.
    pub const CONTINUE: Behaviour = Behaviour {
        continues: true,
        ..Behaviour::NONE
    };
    /// Control leaves the function.
    pub const RETURN: Behaviour = Behaviour {
        returns: true,
        ..Behaviour::NONE
    };

    /// The ways of either.
    pub fn joined(self, other: Behaviour) -> Behaviour
        ensures { result ≡ joined self other }
    {
        Behaviour {
            next: self.next || other.next,
            breaks: self.breaks || other.breaks,
            continues: self.continues || other.continues,
            returns: self.returns || other.returns,
        }
    }

    /// The ways of this, and where it goes on to the next statement the ways of that one.
    pub fn then(self, following: Behaviour) -> Behaviour
        ensures { result ≡ in_turn self following }
    {
        if !self.next {
            return self;
        }
        Behaviour {
            next: following.next,
            breaks: self.breaks || following.breaks,
            continues: self.continues || following.continues,
            returns: self.returns || following.returns,
        }
    }

    /// The ways of a switch whose parts have these.
    pub fn after_switch(self) -> Behaviour
        ensures { result ≡ after_switch self }
    {
        Behaviour {
            next: self.next || self.breaks,
            breaks: false,
            ..self
        }
    }

    /// The ways of a loop whose body and continuing part have these.
    pub fn after_loop(self, may_leave: bool) -> Behaviour
        ensures { result ≡ after_loop self may_leave }
    {
        Behaviour {
            next: self.breaks || may_leave,
            breaks: false,
            continues: false,
            returns: self.returns,
        }
    }

    /// Whether control goes on to the next statement and nowhere else.
    pub fn goes_on(self) -> bool
        ensures { result ≡ goes_on self }
    {
        self.next && !(self.breaks || self.continues || self.returns)
    }
}

/// How control may go on after an act. Takes no memory.
#[cycle(behaviour)]
pub fn act_behaviour(act: &Act) -> Behaviour
    ensures { result ≡ behaviour (act_code act.now 0 done) }
{
    match act {
        Act::If { yes, no, .. } => list_behaviour(yes).joined(list_behaviour(no)),
        Act::Switch { parts, .. } => parts_behaviour(parts).after_switch(),
        Act::Loop {
            body,
            continuing,
            leave,
        } => list_behaviour(body)
            .joined(list_behaviour(continuing))
            .after_loop(leave.is_some()),
        Act::Break => Behaviour::BREAK,
        Act::Continue => Behaviour::CONTINUE,
        Act::Return { .. } => Behaviour::RETURN,
        _ => Behaviour::NEXT,
    }
}

/// How control may go on after a list of statements. Takes no memory.
#[cycle(behaviour)]
pub fn list_behaviour(statements: &Items<CoreStatement>) -> Behaviour
    ensures { result ≡ behaviour (code_of statements.now) }
{
    let mut so_far = Behaviour::NEXT;
    'statements: for statement in statements.as_slice() {
        so_far = so_far.then(act_behaviour(&statement.act));
    }
    so_far
}

/// How control may go on after the parts of a switch, a Break among it. Takes no memory.
#[cycle(behaviour)]
fn parts_behaviour(parts: &Items<SwitchPart>) -> Behaviour
    ensures { result ≡ behaviour (parts_from 0 0 (map part_code parts.now)) }
{
    let mut so_far = Behaviour::NONE;
    'parts: for part in parts.as_slice() {
        so_far = so_far.joined(list_behaviour(&part.body));
    }
    so_far
}
