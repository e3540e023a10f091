//! Tests of payments over what a payer knows beside the map.
#![tactic(auto)]

#[cfg(test)]
mod tests;
