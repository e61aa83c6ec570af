//! A handle, and the session in it.
ghost use Rattle.std.specs.Prelude.{◌≡◌};
ghost use Rattle.std.specs.Borrow.{sem};
ghost use Rattle.xv6_c.specs.Follows.{sealed_follows};

use crate::boxed::Parts;
use crate::sealed::Sealed;
use session::Session;
use std::alloc::Global;

/// What a handle owns, handed over.
pub fn into_parts(sealed: Sealed) -> Parts<Session, Global>
    ensures { result.value ≡ sealed.session }
{
    let Sealed { ptr, alloc } = sealed;
    Parts {
        ptr: ptr as *mut Session,
        alloc,
    }
}

/// The session in a handle.
pub fn get_mut(sealed: &mut Sealed) -> &mut Session
    ensures* writes_back { sem 𝓛 (sealed_follows sealed.entry result) }
    ensures value { result.now ≡ sealed.old.session }
{
    unsafe { &mut *(sealed.ptr as *mut Session) }
}
