//! The search for template lists: one walk over the tokens with a stack of the openers that are open.

ghost use Rattle.std.specs.Prelude.{◌≡◌, ℕ, false, ◌+◌, ◌-◌, ◌^◌, ◌<◌, ◌≤◌, [], None, reverse, if◌then◌else◌, replicate, length, IfOk, OnOk, All};
ghost use Rattle.shade_lex.specs.Templates.{role_at, is_opener, AreClosers};
ghost use Rattle.shade_lex.specs.Scan.{next, push, pass, close_by, cut_at, clear, below, CanScan};

use crate::candidate::Candidate;
use crate::role::Role;
use std::alloc::{AllocError, Global};
use std::marker::Model;

#[derive(Drop)]
pub struct Scan {
    depth: usize,
    /// Newest last.
    candidates: Vec<Candidate>,
    /// For each token the one that closes its list, if that is found.
    closers: Vec<Option<usize>>,
    /// Whether the token before closes a list.
    closed: bool,
}

impl Model for Scan {
    ghost use Rattle.std.specs.Prelude.{reverse};
    ghost use Rattle.shade_lex.specs.Scan.{ScanState};

    ghost Value = { ScanState };

    ghost view = { λ s. record { level = s.depth; candidates = reverse s.candidates.items; closers = s.closers.items; closed = s.closed } };
}

impl Scan {
    pub fn new(alloc: Global, tokens: usize) -> Result<Scan, AllocError>
        ensures { IfOk result (λ scan. scan ≡ record { level = 0; candidates = []; closers = replicate tokens None; closed = false }) }
    {
        let closers = vec![in alloc; None; tokens]?;
        Ok(Scan {
            depth: 0,
            candidates: Vec::new(alloc),
            closers,
            closed: false,
        })
    }

    /// Goes on over one token.
    pub fn step(&mut self, roles: &[Role], at: usize) -> Result<(), AllocError>
        requires within { at < length roles.now }
        requires can { CanScan self.old at }
        ensures { OnOk result (self.new ≡ next (role_at roles.now at) (is_opener roles.now at) at self.old) }
    {
        match roles[at] {
            Role::Less => self.open(is_opener(roles, at), at)?,
            Role::Greater => self.close(at),
            Role::Raise => self.raise(),
            Role::Lower => self.lower(),
            Role::Cut => self.cut(),
            Role::Reset => self.clear(),
            Role::Joined => self.join(),
            Role::Word | Role::Other => self.pass(),
        }
        Ok(())
    }

    /// The closers that were found.
    pub fn into_closers(self) -> Vec<Option<usize>>
        ensures { result.items ≡ self.closers }
    {
        let Scan {
            depth: _,
            candidates: _,
            closers,
            closed: _,
        } = self;
        closers
    }

    fn pass(&mut self)
        ensures { self.new ≡ pass self.old }
    {
        self.closed = false;
    }

    /// Goes on over a `<`, which may be an opener.
    fn open(&mut self, opener: bool, at: usize) -> Result<(), AllocError>
        ensures { OnOk result (self.new ≡ (if opener then push at self.old else pass self.old)) }
    {
        if opener {
            let depth = self.depth;
            self.candidates.push(Candidate { at, depth })?;
        }
        self.closed = false;
        Ok(())
    }

    /// Goes on over a `>`, which closes the newest candidate if that has its depth.
    fn close(&mut self, at: usize)
        requires { CanScan self.old at }
        ensures { self.new ≡ close_by at self.old self.old.candidates }
    {
        self.closed = false;
        if let Some(newest) = self.candidates.last().copied() {
            if newest.depth == self.depth {
                self.candidates.pop();
                self.closers[newest.at] = Some(at);
                self.closed = true;
            }
        }
    }

    fn raise(&mut self)
        requires { self.old.level < 2 ^ 63 }
        ensures { self.new ≡ record { level = self.old.level + 1; candidates = self.old.candidates; closers = self.old.closers; closed = false } }
    {
        self.depth += 1;
        self.closed = false;
    }

    fn lower(&mut self)
        ensures { self.new ≡ cut_at (self.old.level - 1) self.old }
    {
        let depth = self.depth;
        self.depth = depth.saturating_sub(1);
        drop_deep(&mut self.candidates, depth);
        self.closed = false;
    }

    fn cut(&mut self)
        ensures { self.new ≡ cut_at self.old.level self.old }
    {
        drop_deep(&mut self.candidates, self.depth);
        self.closed = false;
    }

    fn clear(&mut self)
        ensures { self.new ≡ clear self.old }
    {
        self.candidates.clear();
        self.depth = 0;
        self.closed = false;
    }

    /// Goes on over an `=` directly after a `>`.
    fn join(&mut self)
        ensures { self.new ≡ (if self.old.closed then clear self.old else pass self.old) }
    {
        if self.closed {
            self.clear();
        }
    }
}

/// Drops the newest candidates down to the first that is below a depth.
fn drop_deep(candidates: &mut Vec<Candidate>, depth: usize)
    ensures { reverse candidates.new.items ≡ below depth (reverse candidates.old.items) }
{
    'deep: while let Some(newest) = candidates.last().copied() {
        if newest.depth < depth {
            return;
        }
        candidates.pop();
    }
}

/// For each token the one that closes its list, and `None` for those that open none.
pub fn closers_of(alloc: Global, roles: &[Role]) -> Result<Vec<Option<usize>>, AllocError>
    ensures { IfOk result (λ closers. AreClosers roles.now closers.items) }
{
    let mut scan = Scan::new(alloc, roles.len())?;
    for at in 0..roles.len() {
        scan.step(roles, at)?;
    }
    Ok(scan.into_closers())
}

/// Whether a `<` stands after a word.
fn is_opener(roles: &[Role], at: usize) -> bool
    requires { at < length roles.now }
    ensures { result ≡ is_opener roles.now at }
{
    at > 0 && roles[at] == Role::Less && roles[at - 1] == Role::Word
}
