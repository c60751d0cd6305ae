// What holds of every line, whoever calls.
ghost use Rattle.lines.specs.Lines.{DriverRead, EitherCase, EveryMessage, LineToMessage, ReadsBack};

// A message's line is read back as that message.
pub fn reads_back()
    ensures { ReadsBack }
{}

// A driver's line for what the yard has is read as what it asks for.
pub fn driver_read()
    ensures { DriverRead }
{}

// A message's digits may be small or capital letters.
pub fn either_case()
    ensures { EitherCase }
{}

// No message is too long for a line.
pub fn every_message()
    ensures { EveryMessage }
{}

// A message that is printed, read and decoded is that message, from that box.
pub fn line_to_message()
    ensures { LineToMessage }
{}
