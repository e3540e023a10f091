//! Tests of what no script shows, of whole scripts through `run` and of the program through `start`: work that workers
//! share, devices that fail, memory that is refused. What scripts are answered is in `tests/scripts`.
#![tactic(auto)]

#[cfg(test)]
mod tests;
