//! What is in force.

ghost use Rattle.std.specs.Prelude.{◌≡◌, ℕ, ◌++◌, ◌∷◌, IfOk, OnErr, OnOk, replicate, slice_get, slice_set, take, [], MatchOption, None, ⊤};
ghost use Rattle.shade_scope.specs.Index.{IsIndexed, bounds_of, nth};
ghost use Rattle.shade_scope.specs.InForce.{InForce, without_last};
ghost use Rattle.shade_scope.specs.Scopes.{closed, declared, depth, found, is_declared, last_or, newest, opened};

use crate::bound::Bound;
use shade_ast::Named;
use sqlite_items::Items;
use std::alloc::{AllocError, Global};
use std::marker::Model;

/// A declaration in force, and where the one of its name before it stands.
#[derive(Clone, Copy, Debug, PartialEq, Eq)]
pub struct Kept {
    pub bound: Bound,
    pub before: Option<usize>,
}

/// The declarations in force, the scopes that are open, and where the newest declaration of each name stands.
#[derive(Debug, Drop)]
pub struct Scopes {
    starts: Items<usize>,
    kept: Items<Kept>,
    last: Items<Option<usize>>,
}

impl Model for Scopes {
    ghost use Rattle.shade_scope.specs.InForce.{InForce};
    ghost use Rattle.shade_scope.specs.Index.{IsIndexed, bounds_of};

    ghost Value = { InForce };

    ghost view = { λ s. record { opened = s.starts; bounds = bounds_of s.kept } };

    ghost invariant = { λ s. IsIndexed s.kept s.last };
}

impl Scopes {
    /// Nothing in force, and no scope open, for names with numbers below a count. Takes memory for each of these names; a name with a
    /// number above it is found by going over all that is in force.
    pub fn new(alloc: Global, names: usize) -> Result<Scopes, AllocError>
        ensures { IfOk result (λ s. s ≡ record { opened = []; bounds = [] }) }
    {
        Ok(Scopes {
            starts: Items::new(alloc),
            kept: Items::new(alloc),
            last: nothing(alloc, names)?,
        })
    }

    /// The declaration that a name means.
    pub fn find(&self, name: u32) -> Option<Bound>
        ensures { result ≡ found self.now name }
    {
        find_in(self.kept.as_slice(), self.last.as_slice(), name)
    }

    /// How many scopes are open.
    pub fn depth(&self) -> usize
        ensures { result ≡ depth self.now }
    {
        self.starts.len()
    }

    /// Whether the innermost scope declares a name.
    pub fn declares(&self, name: u32) -> bool
        ensures { result ≡ is_declared self.now name }
    {
        match self.find(name) {
            Some(bound) => bound.depth == self.depth(),
            None => false,
        }
    }

    /// Begins a scope.
    pub fn open(&mut self) -> Result<(), AllocError>
        ensures { OnOk result (self.new ≡ opened self.old) }
    {
        let count = self.kept.len();
        self.starts.push(count)
    }

    /// Puts a declaration in force, if it is the first of its name in its scope.
    pub fn declare(&mut self, name: Named, entry: bool) -> Result<(), AllocError>
        ensures { OnOk result (self.new ≡ declared name entry self.old) }
    {
        if self.declares(name.name) {
            return Ok(());
        }
        let bound = Bound {
            name: name.name,
            node: name.node,
            place: name.place,
            depth: self.depth(),
            entry,
        };
        keep(&mut self.kept, &mut self.last, bound)
    }

    /// Ends the innermost scope.
    pub fn close(&mut self)
        ensures { self.new ≡ closed self.old }
    {
        if let Some(kept) = pop_start(&mut self.starts) {
            cut(&mut self.kept, &mut self.last, kept);
        }
    }
}

/// Takes the last of some numbers.
fn pop_start(starts: &mut Items<usize>) -> Option<usize>
    ensures rest { starts.new ≡ without_last starts.old }
    ensures last { MatchOption result (starts.old ≡ []) (λ last. (d : ℕ) → last_or d starts.old ≡ last) }
{
    starts.pop()
}

/// A place for each name, at which nothing stands.
fn nothing(alloc: Global, names: usize) -> Result<Items<Option<usize>>, AllocError>
    ensures { IfOk result (λ last. last ≡ replicate names None) }
{
    let mut last = Items::new(alloc);
    for at in 0..names {
        last.push(None)?;
    }
    Ok(last)
}

fn put(last: &mut Items<Option<usize>>, name: u32, place: Option<usize>)
    ensures { last.new ≡ slice_set last.old name place }
{
    let at = name as usize;
    if at < last.len() {
        last.set(at, place);
    }
}

fn nth(kept: &[Kept], place: Option<usize>) -> Option<Bound>
    ensures { result ≡ nth kept.now place }
{
    match kept.get(place?) {
        Some(kept) => Some(kept.bound),
        None => None,
    }
}

/// The last of some declarations that has a name.
fn scan(kept: &[Kept], name: u32) -> Option<Bound>
    ensures { result ≡ newest (bounds_of kept.now) name }
{
    let mut last = None;
    for k in kept {
        if k.bound.name == name {
            last = Some(k.bound);
        }
    }
    last
}

fn find_in(kept: &[Kept], last: &[Option<usize>], name: u32) -> Option<Bound>
    requires { IsIndexed kept.now last.now }
    ensures { result ≡ newest (bounds_of kept.now) name }
{
    match last.get(name as usize) {
        Some(place) => nth(kept, *place),
        None => scan(kept, name),
    }
}

fn before(last: &[Option<usize>], name: u32) -> Option<usize>
    ensures { MatchOption (slice_get last.now name) ⊤ (λ at. result ≡ at) }
{
    match last.get(name as usize) {
        Some(place) => *place,
        None => None,
    }
}

/// Puts one more declaration in force.
fn keep(
    kept: &mut Items<Kept>,
    last: &mut Items<Option<usize>>,
    bound: Bound,
) -> Result<(), AllocError>
    requires { IsIndexed kept.old last.old }
    ensures indexed { IsIndexed kept.new last.new }
    ensures bounds { OnOk result (bounds_of kept.new ≡ bounds_of kept.old ++ bound ∷ []) }
    ensures err { OnErr result (kept.new ≡ kept.old) }
{
    let before = before(last.as_slice(), bound.name);
    let place = kept.len();
    kept.push(Kept { bound, before })?;
    put(last, bound.name, Some(place));
    Ok(())
}

/// Takes the newest declaration out of force.
fn forget(kept: &mut Items<Kept>, last: &mut Items<Option<usize>>)
    requires { IsIndexed kept.old last.old }
    ensures indexed { IsIndexed kept.new last.new }
    ensures rest { kept.new ≡ without_last kept.old }
{
    if let Some(newest) = kept.pop() {
        put(last, newest.bound.name, newest.before);
    }
}

/// Keeps so many of the first in force.
fn cut(kept: &mut Items<Kept>, last: &mut Items<Option<usize>>, count: usize)
    requires { IsIndexed kept.old last.old }
    ensures indexed { IsIndexed kept.new last.new }
    ensures first { kept.new ≡ take count kept.old }
{
    while count < kept.len() {
        forget(kept, last);
    }
}
