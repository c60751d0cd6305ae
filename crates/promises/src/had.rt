// Who is said to have a section: the function's contract is the promise, and it does nothing.
ghost use Rattle.promises.specs.Had.{AlwaysHad};

// Whoever is said to have a section has it, until its home sends that it frees it.
pub fn had_until_freed()
    ensures { AlwaysHad }
{}
