//! From the bytes of an image whose log lies in the heap to what it represents: laws, each as a function
//! with nothing to do.
#![tactic(auto)]

pub mod behind;
pub mod laws;
