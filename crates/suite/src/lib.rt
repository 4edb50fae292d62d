//! Tests of the layers on two small sheets. Many more cases run through `batch`.
#![tactic(auto)]

#[cfg(test)]
mod tests;
