//! A handle that C holds.
ghost use Rattle.std.specs.Prelude.{◌≡◌, is_some, true, Option, Some, None, IfSome, IfNone};
ghost use Rattle.c_engine.specs.declared.engine.Engine.{Engine};
ghost use Rattle.c_engine.specs.Owned.{handle_owns, engine_coded};

use crate::engine::Engine;
use crate::parts::Parts;
use std::alloc::Global;
use std::marker::Model;
use std::{mem, ptr};

/// What C holds of a store: an engine, or none.
#[repr(C)]
#[derive(Drop)]
pub struct Handle {
    at: *mut u8,
    full: bool,
    alloc: Global,
    pub ghost engine: { Option Engine } by { engine_coded },
    pub ghost is_full: { full ≡ is_some engine },
}

impl Model for Handle {
    ghost also_owns = { λ h. handle_owns h.alloc h.at h.engine };
}

impl Handle {
    /// A handle with no engine.
    fn empty(alloc: Global) -> Handle
        ensures { result.engine ≡ None }
    {
        Handle {
            at: ptr::null_mut(),
            full: false,
            alloc,
        }
    }

    fn of_parts(parts: Parts<Engine, Global>) -> Handle
        ensures { result.engine ≡ Some parts.value }
    {
        let Parts { ptr, alloc } = parts;
        Handle {
            at: ptr as *mut u8,
            full: true,
            alloc,
        }
    }

    fn into_parts(self) -> Parts<Engine, Global>
        requires { is_some self.engine ≡ true }
        ensures { self.engine ≡ Some result.value }
    {
        let Handle { at, full: _, alloc } = self;
        Parts {
            ptr: at as *mut Engine,
            alloc,
        }
    }

    fn has_engine(&mut self) -> bool
        ensures { (result ≡ is_some self.old.engine) × (self.new ≡ self.old) }
    {
        self.full
    }

    /// Takes the engine out.
    pub fn take(&mut self, alloc: Global) -> Option<Box<Engine>>
        ensures some { IfSome result (λ b. self.old.engine ≡ Some b.value) }
        ensures none { IfNone result (self.old.engine ≡ None) }
        ensures empty { self.new.engine ≡ None }
    {
        if !self.has_engine() {
            return None;
        }
        let held = mem::replace(self, Handle::empty(alloc));
        Some(held.into_parts().into_box())
    }

    /// Puts an engine in. One that was there stays where it is for good.
    pub fn put(&mut self, engine: Box<Engine>)
        ensures { self.new.engine ≡ Some engine.value }
    {
        *self = Handle::of_parts(Parts::of(engine));
    }
}
