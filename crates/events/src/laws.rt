//! Laws: functions that run no code, whose contracts are theorems.
ghost use Rattle.events.specs.Transcripts.{TranscriptsAreRead};

/// A text of rows, read as a script, stands for the events of the rows.
pub fn transcripts_are_read()
    ensures { TranscriptsAreRead }
{}
