// When the steps of a playback leave, and when it ends: theorems on a playback with no bytes and no slots in it, for crate `replay`.
#![tactic(auto)]

ghost use Rattle.ticks.specs.Promises.{Promises};

// What holds of every playback.
pub fn promises()
    ensures { Promises }
{}
