// Recording, loading and editions over every run of calls: nothing is done, the contracts say it.
#![tactic(auto)]

ghost use Rattle.history.specs.Promises.{Counting, Attaching, Answering, Opening, Promises};

// What is counted is the ticks since the recording began.
pub fn counted()
    ensures { Counting }
{}

// What a slot holds is what the calls have made of it.
pub fn attached()
    ensures { Attaching }
{}

// How an E.4 is answered, by what came before it.
pub fn answered()
    ensures { Answering }
{}

// When a step is open, and what that does.
pub fn opened()
    ensures { Opening }
{}

// All that is promised: those, and where the steps of a sequence come from.
pub fn promises()
    ensures { Promises }
{
    counted();
    attached();
    answered();
    opened()
}
