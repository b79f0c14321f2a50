// What C keeps of a session.
ghost use Rattle.std.specs.Prelude.{◌≡◌, Some, None, IsSome, Option};
ghost use Rattle.c_library.specs.Holding.{BeginsCall, IsSessionKept};
ghost use Rattle.c_library.specs.Keeping.{kept_coded};
ghost use Rattle.c_library.specs.declared.talk.Talk.{Talk};

use crate::beginning::begin;
use crate::call_result::CallResult;
use crate::parts::{BoxParts, boxed};
use crate::talk::Talk;
use std::alloc::Global;
use std::marker::Model;
use std::ptr::null_mut;

/// What C keeps of a session: a pointer to the session, or no session.
#[repr(C)]
#[derive(Drop)]
pub struct KeptTalk {
    at: *mut u8,
    alloc: Global,
    pub ghost value: { Option Talk } by { kept_coded },
}

impl Model for KeptTalk {
    ghost use Rattle.c_library.specs.Keeping.{kept_owns};

    ghost also_owns = { λ k. kept_owns k.alloc k.at k.value };
}

impl KeptTalk {
    /// Keeps the session of this box.
    pub(crate) fn of(whole: Box<Talk>) -> KeptTalk
        ensures { result.value ≡ Some whole.value }
    {
        KeptTalk::of_parts(BoxParts::of(whole))
    }

    /// The box with the session that was kept.
    pub(crate) fn into_box(self) -> Box<Talk>
        requires { IsSome self.value }
        ensures { Some result.value ≡ self.value }
    {
        self.into_parts().into_box()
    }

    /// Keeps no session.
    pub(crate) fn none(alloc: Global) -> KeptTalk
        ensures { result.value ≡ None }
    {
        KeptTalk {
            at: null_mut(),
            alloc,
        }
    }

    // Keeps the session that these parts own.
    fn of_parts(parts: BoxParts<Talk, Global>) -> KeptTalk
        ensures { result.value ≡ Some parts.value }
    {
        let BoxParts { at, alloc } = parts;
        KeptTalk {
            at: at as *mut u8,
            alloc,
        }
    }

    fn into_parts(self) -> BoxParts<Talk, Global>
        requires { IsSome self.value }
        ensures { Some result.value ≡ self.value }
    {
        let KeptTalk { at, alloc } = self;
        BoxParts {
            at: at as *mut Talk,
            alloc,
        }
    }
}

/// Begins a session of the command that one word names, or two words, and keeps the session in `kept`. `second` is
/// empty if one word names the command. If no session begins, `kept` is unchanged. A session that `kept` had before
/// would not be dropped.
pub(crate) fn keep_begun(
    alloc: Global,
    word: &[u8],
    second: &[u8],
    kept: &mut KeptTalk,
) -> CallResult
    ensures { BeginsCall word.now second.now kept.old.value kept.new.value result }
{
    match begin(alloc, word, second) {
        Some(talk) => keep(alloc, talk, kept),
        None => CallResult::NoCommand,
    }
}

fn keep(alloc: Global, talk: Talk, kept: &mut KeptTalk) -> CallResult
    ensures { IsSessionKept talk kept.old.value kept.new.value result }
{
    match boxed(alloc, talk) {
        Some(parts) => {
            *kept = KeptTalk::of_parts(parts);
            CallResult::Done(0)
        }
        None => CallResult::Memory,
    }
}

/// Drops a session, by one call. A drop in place would split the proof at each field.
pub(crate) fn discard(whole: Box<Talk>) {
    drop(whole);
}
