//! What is supported.
ghost use Rattle.std.specs.Prelude.{◌≡◌};
ghost use Rattle.gdbanswers.specs.Features.{has_feature};

/// The answer to `qSupported`: a packet has at most 0x4000 bytes, as many as `gdbwire::MOST`.
pub const SUPPORTED: &[u8] =
    b"PacketSize=4000;QStartNoAckMode+;multiprocess+;vContSupported+;swbreak+;\
qXfer:features:read+;qXfer:exec-file:read+;ReverseStep+;ReverseContinue+;ConditionalBreakpoints+;fork-events+;\
exec-events+";

/// The answer to `vCont?`.
pub const RESUME_KINDS: &[u8] = b"vCont;c;C;s;S;r";

/// Whether a text of features with `;` between them has this one.
pub fn has_feature(text: &[u8], feature: &[u8]) -> bool
    ensures { result ≡ has_feature text.now feature.now }
{
    text.split(|byte| *byte == b';').any(|one| one == feature)
}
