// The boundary's calls: the desk for the program at the dock, and the host for the driver on the server, with the digest that the module is given.
// Each function takes slices and numbers, is the call of the same name, and answers by value. The crate vmc_c exports each to C.
#![tactic(auto)]

pub mod vmc_desk;
pub mod vmc_digest;
pub mod vmc_host;
