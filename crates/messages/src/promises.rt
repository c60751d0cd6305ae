// What holds of all messages and all bytes, said once.
ghost use Rattle.messages.specs.Journal.{CutIsShort, CutReadsBack, OneList};
ghost use Rattle.messages.specs.Promises.{CutRefused, NoneBeginsAnother, OneForm, ReadsBack};

pub fn reads_back()
    ensures { ReadsBack }
{}

pub fn one_form()
    ensures { OneForm }
{}

pub fn none_begins_another()
    ensures { NoneBeginsAnother }
{}

pub fn cut_refused()
    ensures { CutRefused }
{}

pub fn cut_is_short()
    ensures { CutIsShort }
{}

pub fn one_list()
    ensures { OneList }
{}

pub fn cut_reads_back()
    ensures { CutReadsBack }
{}
