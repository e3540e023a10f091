//! Tests of `lgm_publish` by its calls: boards, and worlds.
#![tactic(auto)]

#[cfg(test)]
mod tests;
