//! A store whose log lies in the heap is never stuck for want of room: laws, each as a function with nothing to do.
#![tactic(auto)]

pub mod laws;
