// What is seen of the master: events in, numbers and bytes out. Nothing is done here, each contract says what holds.
#![tactic(auto)]

ghost use Rattle.seen.specs.Written.{Written};
ghost use Rattle.seen.specs.Numbers.{Numbers};
ghost use Rattle.seen.specs.Ways.{Ways};
ghost use Rattle.seen.specs.Tan.{Tan};
ghost use Rattle.seen.specs.AllEnabled.{AllEnabled};
ghost use Rattle.seen.specs.Blank.{BlankOutside};
ghost use Rattle.seen.specs.Promises.{Promises};

// The answers and the blocks that are written, as bytes.
pub fn written()
    ensures { Written }
{}

// What each call gives each number for.
pub fn numbers()
    ensures { Numbers }
{}

// Every way from one state to another.
pub fn ways()
    ensures { Ways }
{}

// The TAN counts the commands.
pub fn tan()
    ensures { Tan }
{}

// What the master holds outside a recording and a playback.
pub fn blank_outside()
    ensures { BlankOutside }
{}

// Who is enabled in playback.
pub fn all_enabled()
    ensures { AllEnabled }
{}

// All of it, and the answer of the worked cases.
pub fn promises()
    ensures { Promises }
{
    numbers();
    written();
    ways();
    blank_outside();
    tan();
    all_enabled()
}
