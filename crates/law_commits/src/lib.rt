//! What a store whose log lies in the heap holds in memory, and the calls that change it: laws, each as a
//! function with nothing to do.
#![tactic(auto)]

pub mod laws;
