//! A session as C holds it.
ghost use Rattle.session.specs.declared.session.Session.{Session};
ghost use Rattle.xv6_c.specs.Sealed.{sealed_owns, session_coded};

use std::alloc::Global;
use std::marker::Model;

/// A session as C holds it: a pointer, since an allocator of the heap takes no room.
#[repr(C)]
pub struct Sealed {
    pub(crate) ptr: *mut u8,
    pub(crate) alloc: Global,
    pub ghost session: { Session } by { session_coded },
}

impl Model for Sealed {
    ghost also_owns = { λ s. sealed_owns s.alloc s.ptr s.session };
}
