// The boundary to C, declared in include/vmc.h, as a static library: each function is the one of the same name of the crate vmc, with its clauses.
#![tactic(auto)]

pub mod vmc_desk;
pub mod vmc_digest;
pub mod vmc_host;
