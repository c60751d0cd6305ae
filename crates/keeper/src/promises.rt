// What holds after every list of calls: each function's contract is one promise, and it does nothing.
ghost use Rattle.keeper.specs.Runs.{AlwaysAnswerStands, NumbersRise, AlwaysReplays};
ghost use Rattle.keeper.specs.Range.{StaysInYard};
ghost use Rattle.keeper.specs.Words.{SameNumbers};

// An engine's last call is answered as it was until its next one comes.
pub fn answer_stands()
    ensures { AlwaysAnswerStands }
{}

// The number of an engine's last call never falls.
pub fn numbers_rise()
    ensures { NumbersRise }
{}

// The records, read back, make the keeper as it was.
pub fn replays()
    ensures { AlwaysReplays }
{}

// Called by the yard's engines alone, a keeper names no others.
pub fn stays_in_yard()
    ensures { StaysInYard }
{}

// Sections' numbers for refusals, answers and holders are the ones that messages write.
pub fn same_numbers()
    ensures { SameNumbers }
{}
