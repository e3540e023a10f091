//! The program `lgm`: a Lightning gossip map and route server that answers a script.
#![tactic(auto)]

use lgm_script::{FromRead, ToWrite};
use lgm_start::{read_words, refuse, start};
use std::process::ExitCode;

fn main(rt: HostRuntime) -> ExitCode {
    let mut errors = ToWrite::new(rt.stderr());
    let words = match read_words(&rt) {
        Ok(words) => words,
        Err(bad) => return ExitCode::from(refuse(rt.alloc(), &mut errors, &bad)),
    };
    let status = start(
        &rt,
        rt.alloc(),
        words.as_slice(),
        &mut FromRead::new(rt.stdin()),
        &mut ToWrite::new(rt.stdout()),
        &mut errors,
    );
    ExitCode::from(status)
}
