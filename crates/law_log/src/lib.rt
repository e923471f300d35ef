//! The log that lies in the heap, as its chains, apart from bytes: laws, each as a function with nothing
//! to do.
#![tactic(auto)]

pub mod laws;
