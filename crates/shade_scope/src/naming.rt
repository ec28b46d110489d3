//! What is in force at each event, what each use means, and the first fault of the events.

ghost use Rattle.std.specs.Prelude.{◌≡◌, ◌++◌, ◌&&◌, [], IfOk, OnOk, None};
ghost use Rattle.std.specs.List.{flat_map};
ghost use Rattle.shade_scope.specs.InForce.{on_last, without_last};
ghost use Rattle.shade_scope.specs.Predeclared.{is_predeclared_name};
ghost use Rattle.shade_scope.specs.Scopes.{called_entry, link_of, linked, links, meant, meant_by, noted, resolved, start, told};
ghost use Rattle.shade_scope.specs.Seen.{before, begun, continued, faults, first_of, next, skip, turned, use_faults};
ghost use Rattle.shade_scope.specs.Faults.{earlier, is_no_later, key, least_of};
ghost use Rattle.shade_scope.specs.Grades.{blank};

use crate::bound::Bound;
use crate::fault::ScopeFault;
use crate::predeclared::is_predeclared_name;
use crate::scoped::Meaning;
use crate::scopes::Scopes;
use shade_ast::{Named, Names};
use shade_base::Place;
use shade_events::Event;
use sqlite_items::Items;
use std::alloc::{AllocError, Global};

/// A loop that is open: how many scopes are open around what its body declares, whether its continuing part has begun, and the
/// first of its `continue`s.
#[derive(Clone, Copy, Debug, PartialEq, Eq)]
pub struct OpenLoop {
    pub depth: usize,
    pub turning: bool,
    pub first: Option<Place>,
}

/// What is in force, the loops that are open, and the declaration of the module that holds what follows, by its node.
#[derive(Debug, Drop)]
pub struct State {
    pub scopes: Scopes,
    pub loops: Items<OpenLoop>,
    pub within: u32,
}

fn first_of(first: Option<Place>, place: Place) -> Option<Place>
    ensures { result ≡ first_of first place }
{
    match first {
        None => Some(place),
        Some(first) => Some(if place.offset <= first.offset {
            place
        } else {
            first
        }),
    }
}

fn continued(place: Place, inner: OpenLoop) -> OpenLoop
    ensures { result ≡ continued place inner }
{
    OpenLoop {
        depth: inner.depth,
        turning: inner.turning,
        first: first_of(inner.first, place),
    }
}

fn add_continue(loops: &mut Items<OpenLoop>, place: Place) -> Result<(), AllocError>
    ensures { OnOk result (loops.new ≡ on_last (continued place) loops.old) }
{
    let Some(inner) = loops.pop() else {
        return Ok(());
    };
    loops.push(continued(place, inner))
}

fn turn_loop(loops: &mut Items<OpenLoop>) -> Result<(), AllocError>
    ensures { OnOk result (loops.new ≡ on_last turned loops.old) }
{
    let Some(inner) = loops.pop() else {
        return Ok(());
    };
    loops.push(OpenLoop {
        depth: inner.depth,
        turning: true,
        first: inner.first,
    })
}

fn end_loop(loops: &mut Items<OpenLoop>)
    ensures { loops.new ≡ without_last loops.old }
{
    let Some(_) = loops.pop() else {
        return;
    };
}

fn begun(depth: usize) -> OpenLoop
    ensures { result ≡ begun depth }
{
    OpenLoop {
        depth,
        turning: false,
        first: None,
    }
}

/// Does what an event does to what is in force.
fn turn(state: &mut State, event: Event) -> Result<(), AllocError>
    ensures { OnOk result (state.new ≡ next state.old event) }
{
    match event {
        Event::Opens => state.scopes.open()?,
        Event::Closes => state.scopes.close(),
        Event::Declares { name, entry } => state.scopes.declare(name, entry)?,
        Event::Enters(node) => state.within = node,
        Event::Loops => state.loops.push(begun(state.scopes.depth()))?,
        Event::Continues(place) => add_continue(&mut state.loops, place)?,
        Event::Turns => turn_loop(&mut state.loops)?,
        Event::LoopEnds => end_loop(&mut state.loops),
        _ => (),
    }
    Ok(())
}

fn undeclared(names: &Names, name: u32) -> Option<Meaning>
    ensures { result ≡ meant_by None (is_predeclared_name names.now name) }
{
    if is_predeclared_name(names, name) {
        return Some(Meaning::Predeclared);
    }
    None
}

/// What a name means. Where it is declared, its text is not looked at.
fn meant(names: &Names, scopes: &Scopes, name: u32) -> Option<Meaning>
    ensures { result ≡ meant names.now scopes.now name }
{
    match scopes.find(name) {
        Some(bound) => Some(Meaning::Declared(bound.node)),
        None => undeclared(names, name),
    }
}

/// Keeps what a use means.
fn note(names: &Names, scopes: &Scopes, event: Event, uses: &mut Vec<Option<Meaning>>)
    ensures { uses.new.items ≡ noted names.now scopes.now event uses.old.items }
{
    let Event::Uses { name, called: _ } = event else {
        return;
    };
    let at = name.node as usize;
    if at < uses.len() {
        uses[at] = meant(names, scopes, name.name);
    }
}

fn add_linked(
    within: u32,
    bound: Option<Bound>,
    links: &mut Vec<(u32, u32)>,
) -> Result<(), AllocError>
    ensures { OnOk result (links.new.items ≡ links.old.items ++ linked within bound) }
{
    if let Some(bound) = bound {
        if bound.depth == 0 {
            links.push((within, bound.node))?;
        }
    }
    Ok(())
}

/// Adds that one declaration of the module uses another.
fn add_link(state: &State, event: Event, links: &mut Vec<(u32, u32)>) -> Result<(), AllocError>
    ensures { OnOk result (links.new.items ≡ links.old.items ++ link_of state.now.within state.now.scopes event) }
{
    match event {
        Event::Uses { name, called: _ } => {
            add_linked(state.within, state.scopes.find(name.name), links)
        }
        _ => Ok(()),
    }
}

fn key(fault: ScopeFault) -> u64
    ensures { result ≡ key fault }
{
    match fault {
        ScopeFault::Unknown(place) => 8 * u64::from(place.offset),
        ScopeFault::Twice(place) => 8 * u64::from(place.offset) + 1,
        ScopeFault::Cycle(place) => 8 * u64::from(place.offset) + 2,
        ScopeFault::EntryCalled(place) => 8 * u64::from(place.offset) + 3,
        ScopeFault::ContinueSkips(place) => 8 * u64::from(place.offset) + 4,
        ScopeFault::BadSeverity(place) => 8 * u64::from(place.offset) + 5,
        ScopeFault::Conflict(place) => 8 * u64::from(place.offset) + 6,
        ScopeFault::NoMemory => 0,
    }
}

/// The first of two faults in their order.
pub fn earlier(a: Option<ScopeFault>, b: Option<ScopeFault>) -> Option<ScopeFault>
    ensures { result ≡ earlier a b }
{
    let Some(first) = a else {
        return b;
    };
    let Some(second) = b else {
        return a;
    };
    if key(first) <= key(second) { a } else { b }
}

/// Whether a fault that was found comes no later than another.
pub fn is_no_later(found: Option<ScopeFault>, other: ScopeFault) -> bool
    ensures { result ≡ is_no_later found other }
{
    match found {
        Some(found) => key(found) <= key(other),
        None => false,
    }
}

fn before(first: Option<Place>, place: Place) -> Option<ScopeFault>
    ensures { result ≡ least_of (before first place) }
{
    let Some(first) = first else {
        return None;
    };
    if first.offset < place.offset {
        return Some(ScopeFault::ContinueSkips(first));
    }
    None
}

fn skip(inner: OpenLoop, bound: Bound) -> Option<ScopeFault>
    ensures { result ≡ least_of (skip bound inner) }
{
    if inner.turning && inner.depth == bound.depth {
        return before(inner.first, bound.place);
    }
    None
}

/// The first `continue` that skips over what is used.
fn skips(loops: &[OpenLoop], bound: Bound) -> Option<ScopeFault>
    ensures { result ≡ least_of (flat_map (skip bound) loops.now) }
{
    let mut least = None;
    for inner in loops {
        least = earlier(least, skip(*inner, bound));
    }
    least
}

fn called_entry(is_call: bool, place: Place) -> Option<ScopeFault>
    ensures { result ≡ least_of (called_entry is_call place) }
{
    if is_call {
        return Some(ScopeFault::EntryCalled(place));
    }
    None
}

fn use_fault(
    names: &Names,
    state: &State,
    name: Named,
    called: bool,
    bound: Option<Bound>,
) -> Option<ScopeFault>
    ensures { result ≡ least_of (use_faults names.now state.now name called bound) }
{
    match bound {
        Some(bound) => earlier(
            called_entry(called && bound.entry, name.place),
            skips(state.loops.as_slice(), bound),
        ),
        None => {
            if is_predeclared_name(names, name.name) {
                return None;
            }
            Some(ScopeFault::Unknown(name.place))
        }
    }
}

/// The first fault of an event.
fn fault_of(names: &Names, state: &State, event: Event) -> Option<ScopeFault>
    ensures { result ≡ least_of (faults names.now state.now event) }
{
    match event {
        Event::Declares { name, entry: _ } => {
            if state.scopes.declares(name.name) {
                return Some(ScopeFault::Twice(name.place));
            }
            None
        }
        Event::Uses { name, called } => {
            use_fault(names, state, name, called, state.scopes.find(name.name))
        }
        Event::LacksSeverity(place) => Some(ScopeFault::BadSeverity(place)),
        _ => None,
    }
}

fn blank_uses(alloc: Global, events: &[Event]) -> Result<Vec<Option<Meaning>>, AllocError>
    ensures { IfOk result (λ uses. uses.items ≡ blank None events.now) }
{
    let mut uses = Vec::new(alloc);
    for event in events {
        if let Event::Node(_) = event {
            uses.push(None)?;
        }
    }
    Ok(uses)
}

/// What the events of a text say of its names: what each use means, by its node, which declarations of the module use which, and
/// the first fault.
#[derive(Drop)]
pub struct Naming {
    pub uses: Vec<Option<Meaning>>,
    pub links: Vec<(u32, u32)>,
    pub least: Option<ScopeFault>,
}

/// Gives what the events of a text say of its names. Takes memory for each name, node and use, and each declaration in
/// force.
pub fn name_all(alloc: Global, names: &Names, events: &[Event]) -> Result<Naming, AllocError>
    ensures uses { IfOk result (λ naming. naming.uses.items ≡ resolved names.now start events.now (blank None events.now)) }
    ensures links { IfOk result (λ naming. naming.links.items ≡ links start events.now) }
    ensures least { IfOk result (λ naming. naming.least ≡ least_of (told names.now start events.now)) }
{
    let mut uses = blank_uses(alloc, events)?;
    let mut links = Vec::new(alloc);
    let mut least = None;
    let mut state = State {
        scopes: Scopes::new(alloc, names.len())?,
        loops: Items::new(alloc),
        within: 0,
    };
    for event in events {
        note(names, &state.scopes, *event, &mut uses);
        add_link(&state, *event, &mut links)?;
        least = earlier(least, fault_of(names, &state, *event));
        turn(&mut state, *event)?;
    }
    Ok(Naming { uses, links, least })
}
