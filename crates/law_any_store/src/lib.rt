//! A store's calls are steps of the machine, whatever its layout: laws, each as a function with nothing to do.
#![tactic(auto)]

pub mod formatting;
pub mod laws;
pub mod opening;
pub mod starts;
