// When the steps of a playback leave, what stands in their frames, and when it ends: theorems on the master, through any calls.
#![tactic(auto)]

ghost use Rattle.plays.specs.Leavings.{Leavings};
ghost use Rattle.plays.specs.Frames.{Frames};
ghost use Rattle.plays.specs.FiveASecond.{FiveASecond};
ghost use Rattle.plays.specs.Ends.{Ends};
ghost use Rattle.plays.specs.Promises.{Promises};

// When each step leaves.
pub fn leavings()
    ensures { Leavings }
{}

// What each tick writes.
pub fn frames()
    ensures { Frames }
{}

// How often a command leaves.
pub fn five_a_second()
    ensures { FiveASecond }
{}

// When, why and how a playback ends.
pub fn ends()
    ensures { Ends }
{}

// What holds of every playback of the master.
pub fn promises()
    ensures { Promises }
{
    leavings();
    frames();
    five_a_second();
    ends()
}
