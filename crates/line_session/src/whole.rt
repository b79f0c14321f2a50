// Inputs that are answered as a whole.
ghost use Rattle.std.specs.Prelude.{◌≡◌, ◌+◌, ◌^◌, ◌<◌, ◌≤◌, ◌++◌, [], ℕ, List, length, take, IfOk, IfErr, OnErr, IsErrOf};
ghost use Rattle.std.specs.Io.KnownBytes.{Consumes, IsAtEnd, Keeps};
ghost use Rattle.cpe_io.specs.Causes.{Rose};
ghost use Rattle.line_session.specs.Heard.{AnswersRun, IsWholeOrLong, IsLeft, ReadsWhole};
ghost use Rattle.line_session.specs.Ran.{Ran, Counted, Completes};
ghost use Rattle.line_session.specs.Task.{Transcript, Whole};

use crate::session::MOST_BYTES;
use crate::status::Status;
use cpe_io::{LineFault, Sink, Source};
use std::alloc::{AllocError, Global};

/// The greatest number of bytes of a read.
const PIECE: usize = 65536;

/// Answers a whole input, at the end of the input.
pub trait Listener {
    ghost use Rattle.line_session.specs.declared.status.Status.{Status};

    /// The state that the answer changes.
    type State;

    /// The transcripts that may be written for an input: text and status.
    ghost says: { Self → List ℕ → Transcript → Type 0 };

    /// The state after the answer, by the state before it, the input and the status.
    ghost leaves: { Self → Self.State → Self.State → List ℕ → Status → Type 0 };

    /// The greatest number of bytes of an input that is kept.
    ghost longest: { Self → ℕ };

    fn most(&self) -> usize
        ensures { result ≡ longest self.now };

    /// Writes the answer to an input.
    fn say<K: Sink>(
        &self,
        alloc: Global,
        state: &mut Self::State,
        input: &[u8],
        sink: &mut K,
    ) -> Status
        ensures answers { AnswersRun (K.held sink.old) (K.held sink.new) (says self.now input.now) result }
        ensures leaves { leaves self.now state.old state.new input.now result }
        ensures sink { Counted Status.WriteFault (K.faults sink.old) (K.faults sink.new) result };

    /// Writes the answer to an input that is longer than `longest`.
    fn say_too_long<K: Sink>(&self, alloc: Global, state: &mut Self::State, sink: &mut K) -> Status
        ensures answers { (input : List ℕ) → longest self.now < length input → AnswersRun (K.held sink.old) (K.held sink.new) (says self.now input) result }
        ensures leaves { (input : List ℕ) → longest self.now < length input → leaves self.now state.old state.new input result }
        ensures sink { Counted Status.WriteFault (K.faults sink.old) (K.faults sink.new) result };
}

/// Answers all remaining input of the source as a whole, and returns the status. The source is read to its end, even if
/// the input is too long to be kept. Nothing is written before that.
pub fn answer_whole<H: Listener, S: Source, K: Sink>(
    alloc: Global,
    listener: &H,
    state: &mut H::State,
    source: &mut S,
    sink: &mut K,
) -> Status
    ensures ran { Ran (S.left source.old) (S.left source.new) (K.held sink.old) (K.held sink.new) (Whole (H.says listener.now))
        (IsLeft (H.leaves listener.now) state.old state.new) result }
    ensures source { Counted Status.ReadFault (S.faults source.old) (S.faults source.new) result }
    ensures sink { Counted Status.WriteFault (K.faults sink.old) (K.faults sink.new) result }
    ensures complete { ¬ Rose (S.faults source.old) (S.faults source.new) → ¬ Rose (K.faults sink.old) (K.faults sink.new)
        → Completes (S.left source.old) (Whole (H.says listener.now)) result }
{
    match read_whole(alloc, source, listener.most()) {
        Ok(Input::Whole(bytes)) => listener.say(alloc, state, &bytes, sink),
        Ok(Input::TooLong) => listener.say_too_long(alloc, state, sink),
        Err(fault) => Status::from(fault),
    }
}

/// An input that was read.
#[derive(Drop)]
pub enum Input {
    /// All bytes of the input.
    Whole(Vec<u8>),
    /// The input has more bytes than can be kept, and none is kept.
    TooLong,
}

// Reads a source to its end, and keeps its bytes if they are at most `most`.
fn read_whole<S: Source>(alloc: Global, source: &mut S, most: usize) -> Result<Input, LineFault>
    ensures reads { ReadsWhole (S.left source.old) (S.left source.new) most result }
    ensures later { S.faults source.old ≤ S.faults source.new }
    ensures once { S.faults source.new ≤ S.faults source.old + 1 }
    ensures still { ¬ IsErrOf result LineFault.Read → S.faults source.new ≡ S.faults source.old }
    ensures cause { IsErrOf result LineFault.Read → Rose (S.faults source.old) (S.faults source.new) }
{
    match Vec::from_elem(alloc, 0u8, PIECE) {
        Ok(mut piece) => read_pieces(source, &mut piece, Input::Whole(Vec::new(alloc)), most),
        Err(_) => Err(LineFault::Memory),
    }
}

// Reads a source to its end, with a given buffer, and keeps its bytes if they are at most `most`.
fn read_pieces<S: Source>(
    source: &mut S,
    piece: &mut [u8],
    nothing: Input,
    most: usize,
) -> Result<Input, LineFault>
    requires room { 0 < length piece.old }
    requires nothing { IsWholeOrLong most [] nothing }
    ensures reads { ReadsWhole (S.left source.old) (S.left source.new) most result }
    ensures later { S.faults source.old ≤ S.faults source.new }
    ensures once { S.faults source.new ≤ S.faults source.old + 1 }
    ensures still { ¬ IsErrOf result LineFault.Read → S.faults source.new ≡ S.faults source.old }
    ensures cause { IsErrOf result LineFault.Read → Rose (S.faults source.old) (S.faults source.new) }
{
    let mut input = nothing;
    let mut taken = 0;
    loop {
        let count = read_piece(source, piece, taken)?;
        if count == 0 {
            return Ok(input);
        }
        taken += count as u64;
        input = match keep(input, &piece[..count], most) {
            Ok(input) => input,
            Err(_) => return Err(LineFault::Memory),
        };
    }
}

// Reads once, and at most as many bytes as the limit of a run still allows.
fn read_piece<S: Source>(source: &mut S, piece: &mut [u8], taken: u64) -> Result<usize, LineFault>
    requires room { 0 < length piece.old }
    requires within { taken ≤ 2 ^ 40 }
    ensures took { IfOk result (λ n. Consumes (S.left source.old) (S.left source.new) (take n piece.new)) }
    ensures within { IfOk result (λ n. n ≤ length piece.new) }
    ensures budget { IfOk result (λ n. taken + n ≤ 2 ^ 40) }
    ensures end { IfOk result (λ n. n ≡ 0 → IsAtEnd (S.left source.new) × (taken < 2 ^ 40)) }
    ensures length { length piece.new ≡ length piece.old }
    ensures none { OnErr result (Keeps (S.left source.old) (S.left source.new)) }
    ensures spent { IsErrOf result LineFault.Endless → taken ≡ 2 ^ 40 }
    ensures later { S.faults source.old ≤ S.faults source.new }
    ensures once { S.faults source.new ≤ S.faults source.old + 1 }
    ensures still { ¬ IsErrOf result LineFault.Read → S.faults source.new ≡ S.faults source.old }
    ensures cause { IsErrOf result LineFault.Read → Rose (S.faults source.old) (S.faults source.new) }
{
    let most = (MOST_BYTES - taken).min(piece.len() as u64) as usize;
    if most == 0 {
        return Err(LineFault::Endless);
    }
    match source.read(&mut piece[..most]) {
        Ok(count) => Ok(count),
        Err(_) => Err(LineFault::Read),
    }
}

// Appends a piece to the kept bytes. If they would be more than `most`, keeps no bytes.
fn keep(input: Input, piece: &[u8], most: usize) -> Result<Input, AllocError>
    ensures { IfOk result (λ now. (bytes : List ℕ) → IsWholeOrLong most bytes input → IsWholeOrLong most (bytes ++ piece.now) now) }
{
    match input {
        Input::Whole(bytes) if piece.len() <= most.saturating_sub(bytes.len()) => {
            put_after(bytes, piece)
        }
        Input::Whole(_) | Input::TooLong => Ok(Input::TooLong),
    }
}

fn put_after(mut bytes: Vec<u8>, piece: &[u8]) -> Result<Input, AllocError>
    ensures { IfOk result (λ now. (most : ℕ) → length bytes.items + length piece.now ≤ most → IsWholeOrLong most (bytes.items ++ piece.now) now) }
{
    bytes.extend_from_slice(piece)?;
    Ok(Input::Whole(bytes))
}
