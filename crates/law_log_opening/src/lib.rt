//! What opening an image reads where its log lies in the heap, and what that image represents: laws, each
//! as a function with nothing to do.
#![tactic(auto)]

pub mod laws;
