// The promises of the net of engines that wait for one another and tell signs, each carried by a function's contract.
#![tactic(auto)]

ghost use Rattle.rings.specs.Cases.{AlwaysCases};
ghost use Rattle.rings.specs.Promise.{AlwaysReal, OnlyHighest, OneFinder, RingStays, OwnSigns, OnlyUp, AlwaysCodeSteps, AlwaysFound, FoundInAnyRun};

// Whoever finds is in a ring of waits at that very moment, however late what it heard was told.
pub fn real()
    ensures { AlwaysReal }
{}

// Whoever finds has the highest own sign of its ring.
pub fn only_highest()
    ensures { OnlyHighest }
{}

// Two who find in one ring are the same engine.
pub fn one_finder()
    ensures { OneFinder }
{}

// A ring stays until one in it finds.
pub fn ring_stays()
    ensures { RingStays }
{}

// Own signs leave their engine's number and never pass what is shown.
pub fn own_signs()
    ensures { OwnSigns }
{}

// What is shown only rises.
pub fn only_up()
    ensures { OnlyUp }
{}

// What `begin`, `hear` and `find` give is a step of the net.
pub fn code_steps()
    ensures { AlwaysCodeSteps }
{}

// Every ring is found by telling and hearing alone, with as many tellings as it has engines.
pub fn found()
    ensures { AlwaysFound }
{}

// A ring is found in any run in which its highest own sign is told round once, in order.
pub fn found_in_any_run()
    ensures { FoundInAnyRun }
{}

// The worked cases of four engines give what their rows say.
pub fn worked_cases()
    ensures { AlwaysCases }
{}
