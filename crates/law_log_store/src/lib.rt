//! What a store whose log lies in the heap leaves on its disk: laws, each as a function with nothing to do.
#![tactic(auto)]

pub mod laws;
