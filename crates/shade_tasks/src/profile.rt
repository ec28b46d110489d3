//! What is out of the profile by itself.

ghost use Rattle.std.specs.Prelude.{◌≡◌, IfOk, codes, slice_get};
ghost use Rattle.std.specs.Str.{bytes_eq};
ghost use Rattle.shade_known.specs.Answers.{Answers};
ghost use Rattle.shade_known.specs.Keeps.{IsFoundOf};
ghost use Rattle.shade_values.specs.Table.{Table};
ghost use Rattle.shade_tasks.specs.Profile.{enabled, required, text_by};

use shade_ast::Names;
use shade_base::Place;
use shade_calls::out_of_profile;
use shade_events::text_of;
use shade_known::{Found, TypingFault};
use std::alloc::Global;

fn is_in_profile(text: &str) -> bool
    ensures { result ≡ bytes_eq text.now (codes "unrestricted_pointer_parameters") }
{
    match text {
        "unrestricted_pointer_parameters" => true,
        _ => false,
    }
}

/// A name of a `requires`. Takes memory for the name that is told.
pub(crate) fn required(
    alloc: Global,
    names: &Names,
    name: u32,
    place: Place,
) -> Result<Found, TypingFault>
    ensures answer { Answers (λ r. r ≡ required (slice_get names.now name) place) result }
    ensures of { (t : Table) → IfOk result (IsFoundOf t) }
{
    let Some(text) = text_of(names, name) else {
        return Ok(Found::Nothing);
    };
    if is_in_profile(text) {
        return Ok(Found::Nothing);
    }
    Err(out_of_profile(alloc, text, place)?)
}

/// An `enable`, by its first name. Takes memory for the name.
pub(crate) fn enabled(
    alloc: Global,
    names: &Names,
    first: Option<u32>,
    place: Place,
) -> Result<Found, TypingFault>
    ensures answer { Answers (λ r. r ≡ enabled (text_by names.now first) place) result }
    ensures of { (t : Table) → IfOk result (IsFoundOf t) }
{
    let Some(name) = first else {
        return Ok(Found::Nothing);
    };
    let Some(text) = text_of(names, name) else {
        return Ok(Found::Nothing);
    };
    Err(out_of_profile(alloc, text, place)?)
}
