// What holds of every event of the master: nothing is done, the contract says it.
#![tactic(auto)]

ghost use Rattle.events.specs.Promises.{Promises};

pub fn promises()
    ensures { Promises }
{}
