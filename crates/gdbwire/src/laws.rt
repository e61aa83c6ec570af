//! Laws: functions that run no code, whose contracts are theorems.
ghost use Rattle.gdbwire.specs.Actions.{ActionsAreRead};
ghost use Rattle.gdbwire.specs.Frames.{FramesAreHeard};
ghost use Rattle.gdbwire.specs.Hex.{BytesAreRead, NumbersAreRead};
ghost use Rattle.gdbwire.specs.Packets.{PacketsAreRead};

/// A frame is heard as its body, whatever comes before and after it.
pub fn frames_are_heard()
    ensures { FramesAreHeard }
{}

/// A packet that is sent is read as what it was.
pub fn packets_are_read()
    ensures { PacketsAreRead }
{}

/// An action that is sent is read as what it was.
pub fn actions_are_read()
    ensures { ActionsAreRead }
{}

/// Numbers and bytes that are written are read as what they were.
pub fn digits_are_read()
    ensures numbers { NumbersAreRead }
    ensures bytes { BytesAreRead }
{}
