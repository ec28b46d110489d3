//! Laws of the verdict and the machine together.
#![tactic(auto)]

mod law;

pub use law::{clean_never_diverges, clean_traces_agree, lanes_go_by_flow};
