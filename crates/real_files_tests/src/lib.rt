//! Tests of `real_files` over a disk that fails, in a crate of their own so that it is proved once.
#![tactic(auto)]

#[cfg(test)]
mod disk;
#[cfg(test)]
mod tests;
