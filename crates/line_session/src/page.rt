// The page: output that is gathered between two writes.
ghost use Rattle.std.specs.Prelude.{◌≡◌, ◌⊎◌, ◌+◌, ◌-◌, ◌^◌, ◌≤◌, min, ◌++◌, [], ℕ, List, Result, Ok, Some, None, true, false, length, take, IfOk, MatchResult, OnErr, OnOk, vec_len, decimal};
ghost use Rattle.cpe_io.specs.Causes.{HasSinkCause};
ghost use Rattle.cpe_io.specs.Writes.{AppendsPrefix};
ghost use Rattle.line_session.specs.Pages.{Pours, AppendsPage};

use byte_room::put;
use cpe_io::{Sink, SinkFault, write_all};
use itoa::Buffer;
use std::alloc::{AllocError, Global};
use std::marker::Model;
use std::mem::replace;

/// The number of bytes from which a page is full: a full page is written without waiting for more output.
const FULL: usize = 65536;

/// A value that writes its text into a room, or returns a reason why it has no text.
pub trait Fill {
    /// The reason why there is no text.
    type Reason;

    /// The text, or the reason why there is none.
    ghost text: { Self → Result (List ℕ) Self.Reason };

    /// The number of bytes of room that `fill` may need.
    ghost need: { Self → ℕ };

    /// The number of bytes of room that `fill` may need, or 2^64 - 1 if that number is greater.
    fn most(&self) -> usize
        ensures { result ≡ min (need self.now) (2 ^ 64 - 1) };

    /// Writes the text from the place `at` on, and returns the place after it. The bytes before `at` are unchanged.
    fn fill(&self, room: &mut [u8], at: usize) -> Result<usize, Self::Reason>
        requires { at + need self.now ≤ length room.old }
        ensures text { MatchResult result (λ end. AppendsPage (text self.now) (take at room.old) (take end room.new) None)
            (λ reason. AppendsPage (text self.now) (take at room.old) (take at room.new) (Some reason)) }
        ensures within { IfOk result (λ end. end ≤ length room.old) }
        ensures length { length room.new ≡ length room.old };
}

/// The output that is gathered between two writes. It is the first `used` bytes of a room; the room grows if a text
/// needs more.
#[derive(Drop)]
pub struct Page {
    room: Vec<u8>,
    used: usize,
}

impl Model for Page {
    ghost use Rattle.std.specs.Prelude.{List, ℕ, ◌≤◌, vec_len};
    ghost use Rattle.line_session.specs.PageText.{page_text};

    ghost Value = { List ℕ };

    ghost view = { page_text };

    ghost invariant = { λ p. p.used ≤ vec_len p.room };
}

impl Page {
    /// An empty page. Allocates: no.
    pub fn new(alloc: Global) -> Page
        ensures { result ≡ [] }
    {
        Page {
            room: Vec::new(alloc),
            used: 0,
        }
    }

    /// Appends the text of `text` to the page. If it has no text, returns the reason, and the page is unchanged.
    pub fn with_room<W: Fill>(&mut self, text: &W) -> Result<Option<W::Reason>, AllocError>
        ensures ok { IfOk result (AppendsPage (W.text text.now) self.old self.new) }
        ensures err { OnErr result (self.new ≡ self.old) }
    {
        make_room(&mut self.room, self.used, text.most())?;
        match text.fill(&mut self.room, self.used) {
            Ok(end) => {
                self.used = end;
                Ok(None)
            }
            Err(reason) => Ok(Some(reason)),
        }
    }

    /// Gives the bytes of the page to a function that appends bytes to them. If the function fails, these bytes are
    /// lost.
    pub fn with_bytes<E: Drop, F: FnOnce(Vec<u8>) -> Result<Vec<u8>, E>>(
        &mut self,
        alloc: Global,
        put: F,
    ) -> Result<(), AllocError>
        requires { F.IsAlwaysCallable put }
        ensures ok { OnOk result ((bytes : _) × (more : _) × (bytes.items ≡ self.old) × F.post put bytes (Ok more) × (self.new ≡ more.items)) }
        ensures err { OnErr result (self.new ≡ []) }
    {
        let bytes = replace(self, Page::new(alloc)).into_bytes();
        match put(bytes) {
            Ok(bytes) => {
                *self = Page::from_bytes(bytes);
                Ok(())
            }
            Err(_) => Err(AllocError),
        }
    }

    // A page that has these bytes.
    fn from_bytes(bytes: Vec<u8>) -> Page
        ensures { result ≡ bytes.items }
    {
        let used = bytes.len();
        Page { room: bytes, used }
    }

    /// The bytes of the page. The caller can append bytes to them.
    pub fn into_bytes(self) -> Vec<u8>
        ensures { result.items ≡ self }
    {
        let Page { mut room, used } = self;
        room.truncate(used);
        room
    }

    /// The text of the page.
    pub fn text(&self) -> &[u8]
        ensures { result.now ≡ self.now }
    {
        &self.room[..self.used]
    }

    /// Empties the page, and keeps its memory.
    pub fn clear(&mut self)
        ensures { self.new ≡ [] }
    {
        self.used = 0;
    }

    /// Appends bytes to the page. If memory runs out, the page is unchanged.
    pub fn push(&mut self, bytes: &[u8]) -> Result<(), AllocError>
        ensures ok { OnOk result (self.new ≡ self.old ++ bytes.now) }
        ensures err { OnErr result (self.new ≡ self.old) }
    {
        make_room(&mut self.room, self.used, bytes.len())?;
        self.used = put(&mut self.room, self.used, bytes);
        Ok(())
    }

    /// Appends a word and a decimal number to the page. If memory runs out, the page is unchanged, or only the word is
    /// appended.
    pub fn push_numbered(&mut self, word: &[u8], number: u64) -> Result<(), AllocError>
        ensures ok { OnOk result (self.new ≡ self.old ++ (word.now ++ decimal number)) }
        ensures err { OnErr result ((self.new ≡ self.old) ⊎ (self.new ≡ self.old ++ word.now)) }
    {
        let mut digits = Buffer::new();
        self.push(word)?;
        self.push(digits.format(number).as_bytes())
    }

    /// Writes the page to the sink if the page is full. After a fault the page is unchanged.
    pub fn flush_if_full<K: Sink>(&mut self, sink: &mut K) -> Result<(), SinkFault>
        ensures ok { OnOk result (Pours (K.held sink.old) (K.held sink.new) self.old self.new []) }
        ensures err { OnErr result (self.new ≡ self.old) }
        ensures prefix { AppendsPrefix (K.held sink.old) (K.held sink.new) self.old }
        ensures full { FULL ≤ length self.old → OnOk result (self.new ≡ []) }
        ensures cause { HasSinkCause (K.faults sink.old) (K.faults sink.new) result }
    {
        self.flush_if_due(true, sink)
    }

    /// Writes the page to the sink if it is full, or if no whole line is kept. The next line may then need a read.
    /// After a fault the page is unchanged.
    pub fn flush_if_due<K: Sink>(&mut self, holds_line: bool, sink: &mut K) -> Result<(), SinkFault>
        ensures ok { OnOk result (Pours (K.held sink.old) (K.held sink.new) self.old self.new []) }
        ensures err { OnErr result (self.new ≡ self.old) }
        ensures prefix { AppendsPrefix (K.held sink.old) (K.held sink.new) self.old }
        ensures due { holds_line ≡ false → OnOk result (self.new ≡ []) }
        ensures full { FULL ≤ length self.old → OnOk result (self.new ≡ []) }
        ensures cause { HasSinkCause (K.faults sink.old) (K.faults sink.new) result }
    {
        if holds_line && self.used < FULL {
            return Ok(());
        }
        write_all(sink, self.text())?;
        self.used = 0;
        Ok(())
    }
}

// Makes room for `most` bytes after those that are used.
fn make_room(room: &mut Vec<u8>, used: usize, most: usize) -> Result<(), AllocError>
    requires { used ≤ vec_len room.old }
    ensures room { OnOk result (used + most ≤ vec_len room.new) }
    ensures used { used ≤ vec_len room.new }
    ensures same { take used room.new.items ≡ take used room.old.items }
{
    if room.len() - used < most {
        room.resize(used.saturating_add(most), 0)?;
    }
    Ok(())
}
