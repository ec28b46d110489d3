//! Tests of the shape of core modules, of their behaviours and of the aliases of their calls. Each file tests one crate by its public
//! items alone, so that the crate itself is proved once and not once more with its tests; `whole`, `values_and_views` and
//! `limits` ask whole modules, which `modules` makes.
#![tactic(auto)]

#[cfg(test)]
mod aliases;
#[cfg(test)]
mod limits;
#[cfg(test)]
mod modules;
#[cfg(test)]
mod rules;
#[cfg(test)]
mod shape;
#[cfg(test)]
mod values_and_views;
#[cfg(test)]
mod whole;
