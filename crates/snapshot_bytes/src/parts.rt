// Reads the parts of rows: texts, names and lists.
ghost use Rattle.std.specs.Prelude.{◌≡◌, ℕ, List, Option, Some, None, MatchResult};
ghost use Rattle.cpe_fs.specs.Unbound.{read_fs};
ghost use Rattle.cpe_rows.specs.Names.{is_lower};
ghost use Rattle.std.specs.Str.{is_utf8};
ghost use Rattle.snapshot_bytes.specs.Reading.{Took, counted_at, text_at, name_at, name_of, number_at, many, list_at, read_when, IsReadAs, named_by};

use crate::cursor::Cursor;
use crate::fault::LoadFault;
use cpe_fs::{FsFault, read_fs_is, unbind_fs};
use cpe_rows::{List, Text, Wfn, is_lower};
use std::alloc::Global;

/// A part of rows that is read from bytes.
pub trait Part: Drop {
    /// The definition of reading: the part and the bytes after it, or none.
    ghost read: { List ℕ → Option (Self × List ℕ) };

    /// The part with which the bytes at the cursor begin.
    ///
    /// # Errors
    /// `NotSnapshot` if the bytes begin with no such part; `Memory` if memory runs out.
    fn take(alloc: Global, cursor: &mut Cursor<'_>) -> Result<Self, LoadFault>
        ensures { Took result cursor.new (read cursor.old) };
}

// The bytes after a number, as many as the number says.
#[tactic(auto, unfolding(crate::specs::Reading::counted_at))]
fn counted<'a>(cursor: &mut Cursor<'a>) -> Result<&'a [u8], LoadFault>
    ensures { MatchResult result (λ s. counted_at cursor.old ≡ Some (s.now, cursor.new)) (λ e. (e ≡ LoadFault.NotSnapshot) × (counted_at cursor.old ≡ None)) }
{
    let count = cursor.number()?;
    cursor.bytes(count as usize)
}

// The text that these bytes are, if they are UTF-8.
#[tactic(auto, using(crate::proofs::PartLemmas::utf8_some, crate::proofs::PartLemmas::utf8_none))]
fn text_of(alloc: Global, bytes: &[u8]) -> Result<Text, LoadFault>
    ensures { IsReadAs result (read_when is_utf8 bytes.now) }
{
    match str::from_utf8(bytes) {
        Ok(text) => Ok(Text::new(alloc, text)?),
        Err(_) => Err(LoadFault::NotSnapshot),
    }
}

#[tactic(auto, unfolding(crate::specs::Reading::text_at))]
pub(crate) fn text(alloc: Global, cursor: &mut Cursor<'_>) -> Result<Text, LoadFault>
    ensures { Took result cursor.new (text_at cursor.old) }
{
    let bytes = counted(cursor)?;
    text_of(alloc, bytes)
}

// The name whose formatted string these bytes are.
fn unbound(alloc: Global, bytes: &[u8]) -> Result<Wfn, LoadFault>
    ensures { IsReadAs result (named_by (read_fs bytes.now)) }
{
    read_fs_is();
    match unbind_fs(alloc, bytes) {
        Ok(name) => Ok(name),
        Err(FsFault::At(_)) => Err(LoadFault::NotSnapshot),
        Err(FsFault::Memory) => Err(LoadFault::Memory),
    }
}

// The name, if it is in lower case.
fn lower(name: Wfn) -> Result<Wfn, LoadFault>
    ensures { MatchResult result (λ n. read_when is_lower name ≡ Some n) (λ e. (e ≡ LoadFault.NotSnapshot) × (read_when is_lower name ≡ None)) }
{
    if is_lower(&name) {
        return Ok(name);
    }
    drop(name);
    Err(LoadFault::NotSnapshot)
}

// The name in lower case whose formatted string these bytes are.
#[tactic(auto, unfolding(crate::specs::Reading::name_of))]
fn name_of(alloc: Global, bytes: &[u8]) -> Result<Wfn, LoadFault>
    ensures { IsReadAs result (name_of bytes.now) }
{
    let name = unbound(alloc, bytes)?;
    lower(name)
}

#[tactic(auto, unfolding(crate::specs::Reading::name_at))]
pub(crate) fn name(alloc: Global, cursor: &mut Cursor<'_>) -> Result<Wfn, LoadFault>
    ensures { Took result cursor.new (name_at cursor.old) }
{
    let bytes = counted(cursor)?;
    name_of(alloc, bytes)
}

/// A list of `count` parts. The list grows only if a further part was read, so a wrong count allocates no memory.
///
/// # Errors
/// `NotSnapshot` if the bytes don't begin with so long a list; `Memory` if memory runs out.
pub(crate) fn many<P: Part>(
    alloc: Global,
    cursor: &mut Cursor<'_>,
    count: u32,
) -> Result<List<P>, LoadFault>
    ensures { Took result cursor.new (many P.read count cursor.old) }
{
    let mut parts = List::new(alloc);
    for _ in 0..count {
        let part = P::take(alloc, cursor)?;
        parts.push_close(part)?;
    }
    Ok(parts)
}

/// A list: first the number of its parts, then the parts.
#[tactic(auto, unfolding(crate::specs::Reading::list_at))]
pub(crate) fn list<P: Part>(alloc: Global, cursor: &mut Cursor<'_>) -> Result<List<P>, LoadFault>
    ensures { Took result cursor.new (list_at P.read cursor.old) }
{
    let count = cursor.number()?;
    many::<P>(alloc, cursor, count)
}
