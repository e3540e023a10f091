//! Tests of payments from the first part to the last.
#![tactic(auto)]

#[cfg(test)]
mod tests;
