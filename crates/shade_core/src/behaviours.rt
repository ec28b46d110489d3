//! The behaviours of all statements of a module.

ghost use Rattle.std.specs.Prelude.{◌≡◌, IsSome, Some};
ghost use Rattle.shade_core.specs.Behaviour.{behaviour_at};

use crate::behaviour::Behaviour;
use crate::module::Site;
use sqlite_items::Items;

/// By function, the behaviours of its statements in structure order: that of the statement with number n at place n.
pub type BehaviourLists = Items<Items<Behaviour>>;

/// The behaviours of all statements of a module.
#[derive(Drop)]
pub struct Behaviours {
    pub functions: BehaviourLists,
}

impl Behaviours {
    /// The behaviour of a statement of the module. Takes no memory.
    pub fn of(&self, site: Site) -> Behaviour
        requires { IsSome (behaviour_at self.now.functions site) }
        ensures { behaviour_at self.now.functions site ≡ Some result }
    {
        self.functions.as_slice()[site.function as usize].as_slice()[site.statement as usize]
    }
}
