//! What a script on a store promises, as a law.
#![tactic(auto)]

ghost use Rattle.law_script.specs.Promise.{ScriptPromise};

/// The promise of the whole program: for every script, on a store opened on an image that represents
/// some history, and at every moment of it: whatever a stop may leave survives, with every commit of
/// which a line `done` was written, and every line that is written says what the machine answers,
/// step by step.
pub fn whatever_a_script_leaves()
    ensures { ScriptPromise }
{}
