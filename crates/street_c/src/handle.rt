//! The opaque handle: what C holds of a session. `lib.rt` takes the session out for each call, and puts it back.
ghost use Rattle.std.specs.Prelude.{◌≡◌, Option, Some, None, is_some, true, false, option_map};
ghost use Rattle.street_c.specs.declared.session.Session.{Session};
ghost use Rattle.street_c.specs.Held.{held_owns, held_coded};

use crate::parts::Parts;
use crate::session::Session;
use std::alloc::Global;
use std::marker::Model;
use std::{mem, ptr};

/// A session, or none, as one pointer. C sees `void *`: a pointer to a type that may be read through a `&` cannot cross.
/// It is dropped only where it holds none: the derive forgets what a handle owns.
#[repr(C)]
#[derive(Drop)]
pub struct Handle {
    at: *mut (),
    alloc: Global,
    ghost held: { Option Session } by { held_coded },
}

impl Model for Handle {
    ghost also_owns = { λ h. held_owns h.alloc h.at h.held };
}

impl Handle {
    /// A handle of what the parts own.
    fn of_parts(parts: Parts<Session, Global>) -> Handle
        ensures { result.held ≡ Some parts.value }
    {
        let Parts { ptr, alloc } = parts;
        Handle {
            at: ptr as *mut (),
            alloc,
        }
    }

    /// A handle that holds nothing.
    fn empty(alloc: Global) -> Handle
        ensures { result.held ≡ None }
    {
        Handle {
            at: ptr::null_mut(),
            alloc,
        }
    }

    /// What the handle owns, as parts.
    fn into_parts(self) -> Parts<Session, Global>
        requires { is_some self.held ≡ true }
        ensures { self.held ≡ Some result.value }
    {
        let Handle { at, alloc } = self;
        Parts {
            ptr: at as *mut Session,
            alloc,
        }
    }
}

/// What C declares: `struct streetsim_session { void *at; bool is_open; }`, all zeros at first. That is a closed one.
#[repr(C)]
#[derive(Drop)]
pub struct Streetsim {
    handle: Handle,
    is_open: bool,
    ghost agrees: { is_open ≡ is_some handle.held },
}

impl Streetsim {
    /// Whether a session is held.
    pub fn is_open(&self) -> bool
        ensures { result ≡ is_some self.now.handle.held }
    {
        self.is_open
    }

    /// Puts the session into a closed handle: into an open one it would lose what that one holds.
    pub fn put(&mut self, session: Box<Session>)
        requires { is_some self.old.handle.held ≡ false }
        ensures { self.new.handle.held ≡ Some session.value }
    {
        *self = Streetsim {
            handle: Handle::of_parts(Parts::of(session)),
            is_open: true,
        };
    }

    /// Takes the session out, and leaves the handle closed.
    pub fn take(&mut self, alloc: Global) -> Option<Box<Session>>
        ensures held { option_map (λ b. b.value) result ≡ self.old.handle.held }
        ensures closed { self.new.handle.held ≡ None }
    {
        let closed = Streetsim {
            handle: Handle::empty(alloc),
            is_open: false,
        };
        let Streetsim { handle, is_open } = mem::replace(self, closed);
        if is_open {
            Some(handle.into_parts().into_box())
        } else {
            None
        }
    }
}

unsafe impl Send for Handle {}
