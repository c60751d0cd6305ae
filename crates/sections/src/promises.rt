// What holds after every list of calls from the empty table on: each function's contract is one promise, and it does nothing.
ghost use Rattle.sections.specs.Promise.{AlwaysFirstServed, AlwaysNobodyItsOwn, NobodyOvertakes, AlwaysNobodyTwice, OneHolder, AlwaysOneQueue, AlwaysSomebodyHas};

// At most one has a section.
pub fn one_holder()
    ensures { OneHolder }
{}

// Nobody waits twice for a section,
pub fn nobody_twice()
    ensures { AlwaysNobodyTwice }
{}

// nor for one that it has,
pub fn nobody_its_own()
    ensures { AlwaysNobodyItsOwn }
{}

// nor for two.
pub fn one_queue()
    ensures { AlwaysOneQueue }
{}

// Whoever waits for a section, somebody has it.
pub fn somebody_has()
    ensures { AlwaysSomebodyHas }
{}

// Nobody overtakes.
pub fn nobody_overtakes()
    ensures { NobodyOvertakes }
{}

// Who gets a section that is let go was the first of its queue.
pub fn first_served()
    ensures { AlwaysFirstServed }
{}
