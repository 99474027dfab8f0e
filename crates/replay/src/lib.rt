// When the steps of a playback leave, and when it ends: theorems on runs of the definitions that the calls of crate `playback` meet.
#![tactic(auto)]

ghost use Rattle.replay.specs.Promises.{Promises};

// What holds of every run.
pub fn promises()
    ensures { Promises }
{}
