//! URIs, the binding of well-formed names that CPE 2.2 had (NIST IR 7695, 6.1), and texts in either binding.
//!
//! Each name has one canonical URI, to which the standard binds it (6.1.2): [`bind_uri`] and [`write_bound_uri`] write
//! this URI. Letters, digits, `_`, `.` and `-` are bare. Each other character is a percent sign and its code in two
//! hexadecimal digits with small letters. The special `?` is `%01`, and `*` is `%02`. Letters keep their case.
//!
//! [`unbind_uri`] and similar calls read a URI (6.1.3). Letters are put in lower case, and a missing component is ANY.
//! More spellings than the canonical URI are accepted. The list of these spellings is this project's own rule, and not
//! in the standard:
//!
//! - the prefix and the part in either case, and hexadecimal digits in either case;
//! - `%2d` and `%2e` for `-` and `.`;
//! - a bare `~` for `%7e`, except in a packed field. At the beginning of the edition a bare `~` begins the five packed
//!   fields;
//! - empty components at the end, up to seven components in all;
//! - a packed edition whose last four fields are empty;
//! - `-` as the part, which is NA there too.
//!
//! Every other percent form is refused. These are refused too, also by this project's own rules:
//!
//! - `%2d` as a whole component or packed field: it would be the text that is one hyphen, which is no value;
//! - `%01` and `%02` inside a text: specials are only at its beginning and end.
//!
//! The place of a refusal ([`UriFault::At`]) is this project's own rule as well.
//!
//! If the first five bytes of a text are `cpe:/`, in any letter case, it is read as a URI, and otherwise as a formatted
//! string ([`unbind_any`]).
#![tactic(auto)]

ghost use Rattle.std.specs.Prelude.{◌≡◌, ℕ, List, ◌+◌, ◌*◌, ◌≤◌, length, Ok, Some, None};
ghost use Rattle.cpe_name.specs.Prelude.{IsName, IsWfnText, lower_name, Values, WfnText};
ghost use Rattle.cpe_fs.specs.Writing.{WritesBound};
ghost use Rattle.cpe_uri.specs.Canon.{canon};
ghost use Rattle.cpe_uri.specs.Grammar.{Uri};
ghost use Rattle.cpe_uri.specs.Unbound.{read_uri};
ghost use Rattle.cpe_uri.specs.Bound.{bound_uri, BindsUri};
ghost use Rattle.cpe_uri.specs.declared.UriFault.TheVariants as fault;

mod bind;
mod bound;
mod language;
mod lend;
mod scan;
mod spelling;
mod text;
mod trim;
mod unbind;
mod values;
mod write;

use crate::bound::put_uri;
pub use bind::bind_uri;
use cpe_name::scan_wfn;
use cpe_values::Memory;
pub use lend::lend_any;
use thiserror::Error;
pub use unbind::{
    read_any_is, read_uri_is, unbind_any, unbind_uri, unbound_any_is, unbound_uri_is,
    write_unbound_any, write_unbound_uri,
};

/// A bound on the bytes of an output text that aren't in its values: names of attributes, brackets, commas, quotes, and
/// `ANY` for each empty component of the URI.
pub const UNBOUND_FRAME: usize = 138;

/// Why no name was read from a text.
#[derive(Clone, Copy, Debug, PartialEq, Eq, Error)]
pub enum UriFault {
    /// No name has this text. The number is the place of the text: the length of its longest beginning that is also the
    /// beginning of a URI. In [`unbind_any`], a text that doesn't begin as a URI is compared with formatted strings
    /// instead. The text has an error at the byte after that beginning, or ends there too early.
    #[error("no name has this text: it goes wrong at byte {0}")]
    At(usize),
    /// Memory ran out.
    #[error("out of memory")]
    Memory,
}

impl From<Memory> for UriFault {
    ghost from_gives = { λ _ e. e ≡ fault.Memory };

    fn from(_memory: Memory) -> UriFault {
        UriFault::Memory
    }
}

/// Writes a canonical URI into `room`, from `at` on, and returns the place after it. It is the canonical URI of the
/// name that has this text (NIST IR 7695, 5 and 6.1.2). The bytes of `room` from the returned place on are unspecified.
/// Returns `None` exactly if no name has the text; `room` is then unchanged. Allocates: no.
///
/// Three bytes for each byte of the text are enough room, also for `cpe:/`, the colons and the tildes. For these, the
/// text has more than enough bytes that aren't in its values.
pub fn write_bound_uri(room: &mut [u8], at: usize, text: &[u8]) -> Option<usize>
    requires { at + 3 * length text.now ≤ length room.old }
    ensures { WritesBound canon bound_uri text.now at (at + 3 * length text.now) room.old room.new result }
{
    let Some(written) = scan_wfn(text) else {
        return None;
    };
    Some(put_uri(room, at, &written))
}

/// Law: `bound_uri` returns the canonical URI of the name that has a text. If no name has the text, it returns nothing.
pub fn bound_uri_is()
    ensures named { (name : Values) (s : List ℕ) → WfnText name s → bound_uri s ≡ Some (canon name) }
    ensures found { (s text : List ℕ) → bound_uri s ≡ Some text → BindsUri s text }
    ensures none { (s : List ℕ) → bound_uri s ≡ None → ¬ (IsWfnText s) }
{}

/// Law: the canonical URI of a name is a URI of the name in lower case, and no text is the URI of two names. So, from
/// what [`bind_uri`] writes for a name, [`unbind_uri`] reads the name in lower case.
pub fn one_name()
    ensures canonical { (name : Values) → IsName name → Uri (lower_name name) (canon name) }
    ensures back { (name : Values) → IsName name → read_uri (canon name) ≡ Ok (lower_name name) }
    ensures name { (a b : Values) (text : List ℕ) → Uri a text → Uri b text → a ≡ b }
{}
