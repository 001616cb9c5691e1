//! `Handle`: the place in the hands of C at which a value of the library stands, or nothing.

ghost use Rattle.std.specs.Prelude.{◌≡◌, Option, None, Some, MatchOption};
ghost use Rattle.core.specs.contracts.option.Option.{the_row as option_row};
ghost use Rattle.fancy_regex_ffi.specs.declared.contents.Contents.{Contents};
ghost use Rattle.fancy_regex_ffi.specs.contracts.contents.Contents.{the_row as contents_row};
ghost use Rattle.fancy_regex_ffi.specs.Handles.{owns_if_live, token};

use crate::box_parts::BoxParts;
use crate::contents::Contents;
use std::alloc::Global;
use std::marker::Model;
use std::{mem, ptr};

/// A value of the library in the hands of C, or nothing.
#[repr(C)]
pub struct Handle {
    /// Where the value is, if there is one.
    at: *mut u8,
    /// Whether there is one.
    live: bool,
    pub ghost contents: { Option Contents } by { (option_row contents_row).coded },
}

impl Model for Handle {
    ghost also_owns = { λ h. owns_if_live token contents_row h.at h.live h.contents };
}

// What a handle owns names no thread, so a handle may go to another one: that is proved.
unsafe impl Send for Handle {}

impl Handle {
    /// The handle that holds nothing.
    pub fn empty() -> Handle
        ensures { result.contents ≡ None }
    {
        Handle {
            at: ptr::null_mut(),
            live: false,
        }
    }

    /// The handle of what a box taken apart owns.
    fn from_parts(parts: BoxParts<Contents, Global>) -> Handle
        ensures { result.contents ≡ Some parts.value }
    {
        let BoxParts { at, alloc: _ } = parts;
        Handle {
            at: at as *mut u8,
            live: true,
        }
    }

    /// What the handle holds, as the parts of its box; `None` if it is empty.
    fn into_parts(self, alloc: Global) -> Option<BoxParts<Contents, Global>>
        ensures { MatchOption result (self.contents ≡ None) (λ parts. self.contents ≡ Some parts.value) }
    {
        let Handle { at, live } = self;
        if live {
            let at = at as *mut Contents;
            Some(BoxParts { at, alloc })
        } else {
            None
        }
    }

    /// The handle that holds this.
    pub fn of(contents: Box<Contents, Global>) -> Handle
        ensures { result.contents ≡ Some contents.value }
    {
        Handle::from_parts(BoxParts::of(contents))
    }

    /// What the handle holds; `None` if it is empty.
    pub fn into_box(self, alloc: Global) -> Option<Box<Contents, Global>>
        ensures { MatchOption result (self.contents ≡ None) (λ contents. self.contents ≡ Some contents.value) }
    {
        match self.into_parts(alloc) {
            Some(parts) => Some(parts.into_box()),
            None => None,
        }
    }

    /// Takes what the handle holds, and leaves it empty; `None` if it is empty already.
    pub fn take(&mut self, alloc: Global) -> Option<Box<Contents, Global>>
        ensures taken { MatchOption result (self.old.contents ≡ None) (λ contents. self.old.contents ≡ Some contents.value) }
        ensures empty { self.new.contents ≡ None }
    {
        mem::replace(self, Handle::empty()).into_box(alloc)
    }

    /// Holds this from now on; what it held before is dropped.
    pub fn put(&mut self, alloc: Global, contents: Box<Contents, Global>)
        ensures { self.new.contents ≡ Some contents.value }
    {
        let old = mem::replace(self, Handle::of(contents));
        if let Some(before) = old.into_box(alloc) {
            drop(before);
        }
    }
}
