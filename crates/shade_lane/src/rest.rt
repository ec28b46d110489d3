//! What a lane has left to run.

ghost use Rattle.std.specs.Prelude.{◌≡◌, [], ◌∷◌, true, IfOk, OnOk, OnErr, MatchOption};
ghost use Rattle.shade_lane.specs.Seen.{place_of, later_of, below_of, has_first, HasFirst};

use shade_core::CoreStatement;
use std::alloc::{AllocError, Global};
use std::marker::Model;

/// The lists of statements that are open, each from the next statement on.
#[derive(Drop)]
pub(crate) struct Rest<'m> {
    // The innermost list is last.
    lists: Vec<&'m [CoreStatement]>,
}

impl<'m> Model for Rest<'m> {
    ghost use Rattle.std.specs.Prelude.{List, map, reverse};
    ghost use Rattle.shade_core.specs.declared.statement.CoreStatement.{CoreStatement};

    ghost Value = { List (List CoreStatement) };

    ghost use Rattle.std.specs.Coded.{coded_list};
    ghost use Rattle.shade_core.specs.contracts.statement.CoreStatement as statement;

    ghost coded = { coded_list (coded_list statement.the_row.coded) };

    ghost view = { λ r. reverse (map (λ l. l.now) r.lists.items) };
}

impl<'m> Rest<'m> {
    /// All of a body.
    pub(crate) fn begin(alloc: Global, body: &'m [CoreStatement]) -> Result<Rest<'m>, AllocError>
        ensures { IfOk result (λ rest. rest ≡ body.now ∷ []) }
    {
        let mut lists = Vec::new(alloc);
        lists.push(body)?;
        Ok(Rest { lists })
    }

    /// Closes the lists that are done, and gives the first statement that is left. Takes no memory.
    pub(crate) fn first(&mut self) -> Option<&'m CoreStatement>
        ensures place { place_of self.new ≡ place_of self.old }
        ensures first { MatchOption result (self.new ≡ []) (λ s. HasFirst s.now self.new) }
    {
        'done: while let Some(list) = self.lists.pop() {
            if let Some((first, _)) = list.split_first() {
                let _ = self.lists.push(list);
                return Some(first);
            }
        }
        None
    }

    /// Leaves the first statement behind. Takes no memory.
    pub(crate) fn pass(&mut self)
        requires { has_first self.old ≡ true }
        ensures { self.new ≡ later_of self.old ∷ below_of self.old }
    {
        if let Some(list) = self.lists.pop() {
            if let Some((_, later)) = list.split_first() {
                let _ = self.lists.push(later);
            }
        }
    }

    /// Leaves the first statement behind, and opens a list.
    pub(crate) fn enter(&mut self, part: &'m [CoreStatement]) -> Result<(), AllocError>
        requires { has_first self.old ≡ true }
        ensures ok { OnOk result (self.new ≡ part.now ∷ later_of self.old ∷ below_of self.old) }
        ensures err { OnErr result (self.new ≡ self.old) }
    {
        self.lists.reserve(1)?;
        if let Some(list) = self.lists.pop() {
            if let Some((_, later)) = list.split_first() {
                let _ = self.lists.push(later);
                let _ = self.lists.push(part);
            }
        }
        Ok(())
    }

    /// Leaves all behind. Takes no memory.
    pub(crate) fn clear(&mut self)
        ensures { self.new ≡ [] }
    {
        self.lists.clear();
    }
}
