//! Inner, and begun: how a collection writes down expressions, casts and accesses, within its limits. It cannot be begun,
//! offered to or drawn yet.
#![tactic(auto)]

mod offers;
mod state;

pub use state::Collection;
