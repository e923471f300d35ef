//! The calls of a store whose log lies in the heap are steps of the machine, with what a stop may leave: laws, each as a
//! function with nothing to do.
#![tactic(auto)]

pub mod laws;
