//! What opening a store whose log lies in the heap, formatting a disk for it and closing it mean: laws, each as a function with
//! nothing to do.
#![tactic(auto)]

pub mod laws;
