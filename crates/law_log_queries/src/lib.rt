//! The queries of a store whose log lies in the heap are answered as the machine's history says: laws, each as a function with
//! nothing to do.
#![tactic(auto)]

pub mod laws;
