//! Tests of what messages are written in: `lgm_hex`, `lgm_wire` and `lgm_gossip`.
#![tactic(auto)]

#[cfg(test)]
mod gossip;
#[cfg(test)]
mod hexadecimal;
#[cfg(test)]
mod wire;
