//! Tests of the map: comparisons with a plain program, and histories. Where an error is `AllocError`, memory ran out.
#![tactic(auto)]

#[cfg(test)]
mod tests;
