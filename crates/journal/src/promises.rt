// What holds of every file, said once.
ghost use Rattle.journal.specs.Opening.{AppendedReadsBack, OpenedTwice};

pub fn opened_twice()
    ensures { OpenedTwice }
{}

pub fn appended_reads_back()
    ensures { AppendedReadsBack }
{}
