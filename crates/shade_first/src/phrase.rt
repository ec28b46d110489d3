//! Reads single tokens and fixed lists of tokens.

ghost use Rattle.std.specs.Prelude.{◌≡◌, ◌<◌, ◌≤◌, OnSome, MatchOption, MatchResult, Some, length, map, slice_get};
ghost use Rattle.shade_base.specs.declared.place.Place.{Place};
ghost use Rattle.shade_first.specs.Form.{token_of, Placed, Sequence, Lanes, Limit};
ghost use Rattle.shade_first.specs.Form as form;
ghost use Rattle.shade_first.specs.Reads.{Reads, Faults};
ghost use Rattle.shade_first.specs.Steps.{kind_of};
ghost use Rattle.shade_first.specs.Tokens.{AreWords};

use crate::number::{lane_count, unsigned_value};
use crate::reserved::is_reserved;
use crate::step::{Step, is_kind};
use crate::token::{Kind, Token};
use shade_base::Place;
use shade_values::Name;

/// Why no phrase was read: no phrase goes on with the token at this place, or memory ran out.
#[derive(Clone, Copy)]
pub enum SyntaxFault {
    Unexpected(usize),
    NoMemory,
}

/// The place of the token of a step, if that stands there.
pub fn step_at(tokens: &[Token], at: usize, step: Step) -> Option<Place>
    ensures within { OnSome result (at < length tokens.now) }
    ensures value { MatchOption result ((p : Place) → ¬ (slice_get tokens.now at ≡ Some (token_of (kind_of step.entry) p))) (λ p. slice_get tokens.now at ≡ Some (token_of (kind_of step.entry) p)) }
{
    match tokens.get(at) {
        Some(token) if is_kind(&token.kind, step) => Some(token.place),
        _ => None,
    }
}

/// Reads the token of a step.
pub fn placed(tokens: &[Token], from: usize, step: Step) -> Result<(Place, usize), SyntaxFault>
    requires { from ≤ length tokens.now }
    ensures { MatchResult result (λ p. Reads (Placed (kind_of step.entry)) tokens.now from p.0 p.1) (λ f. Faults (Placed (kind_of step.entry)) tokens.now from f) }
{
    match step_at(tokens, from, step) {
        Some(place) => Ok((place, from + 1)),
        None => Err(SyntaxFault::Unexpected(from)),
    }
}

/// Reads the tokens of steps, one after another.
pub fn fixed(tokens: &[Token], from: usize, steps: &[Step]) -> Result<usize, SyntaxFault>
    requires { from ≤ length tokens.now }
    ensures { MatchResult result (λ to. Reads (Sequence (map kind_of steps.now)) tokens.now from tt to) (λ f. Faults (Sequence (map kind_of steps.now)) tokens.now from f) }
{
    let mut at = from;
    'steps: for step in steps {
        let (_, next) = placed(tokens, at, *step)?;
        at = next;
    }
    Ok(at)
}

// The number at a place as it is written, if one stands there.
fn number_at(tokens: &[Token], at: usize) -> Option<&[u8]>
    ensures { MatchOption result ((text : _) (p : Place) → ¬ (slice_get tokens.now at ≡ Some (token_of (Kind.Number text) p))) (λ text. (p : Place) × (slice_get tokens.now at ≡ Some (token_of (Kind.Number text.now) p))) }
{
    match tokens.get(at) {
        Some(
            Token {
                kind: Kind::Number(text),
                ..
            },
        ) => Some(text.as_slice()),
        _ => None,
    }
}

// The word at a place, if one stands there.
fn word_at(tokens: &[Token], at: usize) -> Option<(&Name, Place)>
    ensures { MatchOption result ((text : _) (p : Place) → ¬ (slice_get tokens.now at ≡ Some (token_of (Kind.Word text) p))) (λ w. slice_get tokens.now at ≡ Some (token_of (Kind.Word w.0.now) w.1)) }
{
    match tokens.get(at) {
        Some(
            Token {
                kind: Kind::Word(word),
                place,
            },
        ) => Some((word, *place)),
        _ => None,
    }
}

/// Reads a number of lanes.
pub fn lanes(tokens: &[Token], from: usize) -> Result<(u32, usize), SyntaxFault>
    requires { from ≤ length tokens.now }
    ensures { MatchResult result (λ p. Reads Lanes tokens.now from p.0 p.1) (λ f. Faults Lanes tokens.now from f) }
{
    let Some(text) = number_at(tokens, from) else {
        return Err(SyntaxFault::Unexpected(from));
    };
    match lane_count(text) {
        Some(count) => Ok((count, from + 1)),
        None => Err(SyntaxFault::Unexpected(from)),
    }
}

/// Reads the limit of a condition.
pub fn limit(tokens: &[Token], from: usize) -> Result<(u32, usize), SyntaxFault>
    requires { from ≤ length tokens.now }
    ensures { MatchResult result (λ p. Reads Limit tokens.now from p.0 p.1) (λ f. Faults Limit tokens.now from f) }
{
    let Some(text) = number_at(tokens, from) else {
        return Err(SyntaxFault::Unexpected(from));
    };
    match unsigned_value(text) {
        Some(value) => Ok((value, from + 1)),
        None => Err(SyntaxFault::Unexpected(from)),
    }
}

/// Reads a declared name.
pub fn declared(tokens: &[Token], from: usize) -> Result<(Name, Place, usize), SyntaxFault>
    requires within { from ≤ length tokens.now }
    requires words { AreWords tokens.now }
    ensures { MatchResult result (λ p. Reads form.Name tokens.now from (p.0, p.1) p.2) (λ f. Faults form.Name tokens.now from f) }
{
    let Some((word, place)) = word_at(tokens, from) else {
        return Err(SyntaxFault::Unexpected(from));
    };
    if is_reserved(word.as_slice()) {
        return Err(SyntaxFault::Unexpected(from));
    }
    match word.clone() {
        Ok(name) => Ok((name, place, from + 1)),
        Err(_) => Err(SyntaxFault::NoMemory),
    }
}
