//! Tests of payments that are answered while items are admitted: batches through `live`, and scripts through
//! `run_live`; and of the memory and the random bytes that both kinds of scripts use.
#![tactic(auto)]

#[cfg(test)]
mod batches;
#[cfg(test)]
mod faults;
#[cfg(test)]
mod gates;
#[cfg(test)]
mod memory;
#[cfg(test)]
mod routes;
#[cfg(test)]
mod runs;
#[cfg(test)]
mod seeds;
#[cfg(test)]
mod waiting;
