//! Tests of libraries by their own calls.
#![tactic(auto)]

#[cfg(test)]
mod tests;
