// What every step does and leaves: stops, cut messages, the same message again, what is turned away, and turn.
ghost use Rattle.promises.specs.Steps.{AgainChangesNothing, CutChangesNothing, AlwaysInTurn, SameAfterAStop, AlwaysTurnedAway};

// A box that stops comes up, and with all that was stored of it.
pub fn same_after_a_stop()
    ensures { SameAfterAStop }
{}

// A message that was cut short is turned away by 1, and nothing changes.
pub fn cut_changes_nothing()
    ensures { CutChangesNothing }
{}

// The same message again changes no box.
pub fn again_changes_nothing()
    ensures { AgainChangesNothing }
{}

// A line that is turned away changes nothing; a message that is turned away changes no section and no engine.
pub fn turned_away()
    ensures { AlwaysTurnedAway }
{}

// Who has a section after another was first of its queue, and nobody overtakes.
pub fn in_turn()
    ensures { AlwaysInTurn }
{}
