//! The tests of threads: what contracts leave open of peers that threads share, and of workers over links, which lose and
//! break.
//!
//! One peer goes through all of it, since each function that ends a peer is dear to prove.
//! Not here: what the programs can show, as over UDP, which is in `cases/`.
#![tactic(auto)]

#[cfg(test)]
mod tests;
