// The demands as theorems, over the definitions that the contracts of the calls cite: nothing is done here, the contract says it.
#![tactic(auto)]

ghost use Rattle.promises.specs.Promises.{Promises};

// All that is promised.
pub fn promises()
    ensures { Promises }
{
    pool::cases();
    pool::codes();
    pool::edges();
    profile::says();
    objects::round_trip();
    objects::tables();
    flat_object::read_back();
    message::promises();
    message::clauses();
    flat::promises();
    flat::read_back();
    shown::promises();
    shown::examples();
    printed::promises();
    printed::examples();
    recording::promises();
    playback::promises();
    events::promises();
    seen::promises();
    history::promises();
    plays::promises();
    store::promises();
    bound::determined()
}
