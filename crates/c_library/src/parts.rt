// A box as its pointer and its allocator.
ghost use Rattle.std.specs.Prelude.{◌≡◌, IfSome};
ghost use Rattle.std.specs.Box.Ownership.{box_owns};

use std::alloc::{Allocator, Global};
use std::marker::Model;

/// What a box owns, as its pointer and its allocator. All modules of the crate can read the pointer.
#[derive(Drop)]
pub(crate) struct BoxParts<T, A: Allocator> {
    pub(crate) at: *mut T,
    pub(crate) alloc: A,
    pub(crate) ghost value: { T },
}

impl<T, A: Allocator> Model for BoxParts<T, A> {
    ghost also_owns = { λ p. box_owns (A.dealloc_token p.alloc) T.row p.at p.value };
}

impl<T, A: Allocator> BoxParts<T, A> {
    /// The parts of a box.
    pub(crate) fn of(whole: Box<T, A>) -> BoxParts<T, A>
    where
        T: Drop,
        ensures { result.value ≡ whole.value }
    {
        let (at, alloc) = Box::into_raw_with_allocator(whole);
        BoxParts { at, alloc }
    }

    /// The box that has these parts.
    pub(crate) fn into_box(self) -> Box<T, A>
        ensures { result.value ≡ self.value }
    {
        let BoxParts { at, alloc } = self;
        unsafe { Box::from_raw(alloc, at) }
    }
}

/// The parts of a new box with this value, or `None` if memory runs out. The function is for any type, because for a
/// type with many fields the drop of the value would split the proof.
pub(crate) fn boxed<T: Drop>(alloc: Global, whole: T) -> Option<BoxParts<T, Global>>
    ensures { IfSome result (λ parts. parts.value ≡ whole) }
{
    match Box::new(alloc, whole) {
        Ok(whole) => Some(BoxParts::of(whole)),
        Err(_) => None,
    }
}
