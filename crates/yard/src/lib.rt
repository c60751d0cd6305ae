// What is promised of the whole yard, sections and signs together. Each function carries one promise in its contract, and does nothing.
#![tactic(auto)]

ghost use Rattle.yard.specs.Found.{Found, FoundInEveryRun};
ghost use Rattle.yard.specs.Needed.{RingOfThree, RoundCanBeTold, TellingAfterFreeing, SignBeforeQueue, EarlierCount, KeptSign, OwnSignAgain};
ghost use Rattle.yard.specs.Order.{OneAtATime, OnePlace, SomebodyHas, FirstGets, NoOvertaking, Behind, TurnHasCome, OwnDiffer, ShownRises, OnlyTaken};
ghost use Rattle.yard.specs.Rings.{Real, Highest, Alone, Stays, StaysUntilFound, OldWords};

// Whoever finds is, at that moment, in the queue of a section that the next one has, and so on round to itself.
pub fn finder_is_in_a_ring()
    ensures { Real }
{}

// Every other of the finder's ring has a lower own sign.
pub fn finder_is_highest()
    ensures { Highest }
{}

// Nobody else of the finder's ring has been told to give up or can find.
pub fn finder_is_alone()
    ensures { Alone }
{}

// From step to step a ring is still there unless one of it had been told to give up.
pub fn ring_stays()
    ensures { Stays }
{}

// Through any run a ring stays until one of it finds.
pub fn ring_stays_until_found()
    ensures { StaysUntilFound }
{}

// What was told by one that waits nowhere now is no own sign of anybody who waits.
pub fn old_words_do_no_harm()
    ensures { OldWords }
{}

// Who has a section has it until it has sent that it frees it.
pub fn one_at_a_time()
    ensures { OneAtATime }
{}

// Nobody waits in two places of the yard, or twice in one.
pub fn one_place()
    ensures { OnePlace }
{}

// Whoever waits, somebody else has the section.
pub fn somebody_has_it()
    ensures { SomebodyHas }
{}

// Who gets a section was first in its queue.
pub fn first_gets_it()
    ensures { FirstGets }
{}

// Nobody who came later stands before one that waits on.
pub fn nobody_overtakes()
    ensures { NoOvertaking }
{}

// Who had a section while another waited comes in again only behind it.
pub fn comes_in_behind()
    ensures { Behind }
{}

// Who waits as of a change and had the section at a later one has it now.
pub fn turn_has_come()
    ensures { TurnHasCome }
{}

// No two engines ever have the same own sign.
pub fn own_signs_differ()
    ensures { OwnDiffer }
{}

// What an engine shows only rises.
pub fn shown_rises()
    ensures { ShownRises }
{}

// Nobody ever shows or is told a sign that its engine hasn't taken.
pub fn signs_were_taken()
    ensures { OnlyTaken }
{}

// From every ring there is a way to its finding by the highest: beginnings of those that have not heard, then as many tellings as engines, and hearings.
pub fn every_ring_is_found()
    ensures { Found }
{}

// In every run in which the highest sign is told round once in order, its engine finds.
pub fn found_in_every_run()
    ensures { FoundInEveryRun }
{}

// The promises are not empty: a run to a ring of three and its finding.
pub fn ring_of_three_is_found()
    ensures { RingOfThree }
{}

// The premises of the promise about every run can be met: the highest sign of that ring is told round.
pub fn round_can_be_told()
    ensures { RoundCanBeTold }
{}

// Telling after the freeing was sent leads to a false finding.
pub fn silence_once_freed_is_needed()
    ensures { TellingAfterFreeing }
{}

// A sign taken when asking, before standing in the queue, leads to a false finding.
pub fn standing_in_the_queue_is_needed()
    ensures { SignBeforeQueue }
{}

// Hearing by an earlier count leads to a false finding.
pub fn this_count_is_needed()
    ensures { EarlierCount }
{}

// Keeping one's sign when the section passes to another leads to a ring that nobody finds.
pub fn new_sign_is_needed()
    ensures { KeptSign }
{}

// Showing one's own sign again after a stop leads to a ring that nobody finds.
pub fn showing_what_was_shown_is_needed()
    ensures { OwnSignAgain }
{}
