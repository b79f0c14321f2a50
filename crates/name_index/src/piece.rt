// Neighbouring numbers of a list in blocks.
ghost use Rattle.std.specs.Prelude.{◌≡◌, ◌==◌, ◌≤◌, ◌<◌, ◌-◌, true, not, ◌&&◌, [], ◌++◌, length, take, drop, filter};
ghost use Rattle.std.specs.Iterator.{YieldsFirst, item_count};
ghost use Rattle.name_index.specs.Blocks.{IsParted};
ghost use Rattle.name_index.specs.Places.{flat, AreFilled, block_at, before, numbers_behind, is_preceded};

use crate::search::{BlockPlace, Test, all_pass, back_of, block_of, find, none_pass};
use std::marker::Model;

// Neighbouring numbers of a list, in order. Contracts see the numbers that are left. A step doesn't allocate.
#[derive(Drop)]
pub(crate) struct BlockPiece<'a> {
    // The numbers that are left: first a part of a block, then whole blocks, then a prefix of the next block.
    here: &'a [u32],
    whole: &'a [Vec<u32>],
    last: &'a [u32],
}

impl<'a> Model for BlockPiece<'a> {
    ghost use Rattle.std.specs.Prelude.{ℕ, List, ◌++◌};
    ghost use Rattle.name_index.specs.Places.{flat, AreFilled};

    ghost Value = { List ℕ };

    ghost view = { λ p. p.here.now ++ (flat p.whole.now ++ p.last.now) };

    ghost invariant = { λ p. AreFilled p.whole.now };
}

impl<'a> BlockPiece<'a> {
    // No numbers.
    pub(crate) fn none() -> BlockPiece<'a>
        ensures { result ≡ [] }
    {
        BlockPiece {
            here: &[],
            whole: &[],
            last: &[],
        }
    }

    // The numbers of a slice.
    pub(crate) fn of(numbers: &'a [u32]) -> BlockPiece<'a>
        ensures { result ≡ numbers.now }
    {
        BlockPiece {
            here: numbers,
            whole: &[],
            last: &[],
        }
    }

    // Whether no number is left.
    #[inline(always)]
    pub(crate) fn is_empty(&self) -> bool
        ensures { result ≡ (length self.now == 0) }
    {
        if !self.here.is_empty() {
            return false;
        }
        if !self.whole.is_empty() {
            return false;
        }
        self.last.is_empty()
    }

    // A copy of the piece, which visits the same numbers. Allocates: no.
    pub(crate) fn again(&self) -> BlockPiece<'a>
        ensures { result ≡ self.now }
    {
        BlockPiece {
            here: self.here,
            whole: self.whole,
            last: self.last,
        }
    }
}

impl<'a> Iterator for BlockPiece<'a> {
    type Item = u32;

    ghost next_gives = { YieldsFirst (λ rest. rest) };

    ghost remaining = { item_count (λ rest. rest) };

    #[inline(always)]
    fn next(&mut self) -> Option<u32> {
        while self.here.is_empty() {
            if let Some((block, whole)) = self.whole.split_first() {
                self.here = block;
                self.whole = whole;
            } else if self.last.is_empty() {
                return None;
            } else {
                self.here = self.last;
                self.last = &[];
            }
        }
        let (number, rest) = self.here.split_first()?;
        self.here = rest;
        Some(*number)
    }
}

// All numbers of the blocks, as one piece.
pub(crate) fn all_of(blocks: &[Vec<u32>]) -> BlockPiece<'_>
    requires { AreFilled blocks.now }
    ensures { result ≡ flat blocks.now }
{
    BlockPiece {
        here: &[],
        whole: blocks,
        last: &[],
    }
}

fn front_of(block: &[u32], to: usize) -> &[u32]
    requires { to ≤ length block.now }
    ensures { result.now ≡ take to block.now }
{
    &block[..to]
}

fn part_of(block: &[u32], from: usize, to: usize) -> &[u32]
    requires from { from ≤ to }
    requires to { to ≤ length block.now }
    ensures { result.now ≡ take (to - from) (drop from block.now) }
{
    &block[from..to]
}

fn blocks_from(blocks: &[Vec<u32>], from: usize, to: usize) -> &[Vec<u32>]
    requires from { from ≤ to }
    requires to { to ≤ length blocks.now }
    ensures { result.now ≡ take (to - from) (drop from blocks.now) }
{
    &blocks[from..to]
}

// The numbers between two places in the same block.
fn piece_within(blocks: &[Vec<u32>], block: usize, from: usize, to: usize) -> BlockPiece<'_>
    requires inside { block < length blocks.now }
    requires from { from ≤ to }
    requires to { to ≤ length (block_at blocks.now block) }
    ensures front { before blocks.now block to ≡ before blocks.now block from ++ result }
    ensures back { numbers_behind blocks.now block from ≡ result ++ numbers_behind blocks.now block to }
{
    BlockPiece {
        here: part_of(block_of(blocks, block), from, to),
        whole: &[],
        last: &[],
    }
}

// The numbers from a place in a block to a place in a later block.
fn piece_over(blocks: &[Vec<u32>], from: BlockPlace, to: BlockPlace) -> BlockPiece<'_>
    requires filled { AreFilled blocks.now }
    requires later { from.block < to.block }
    requires inside { to.block < length blocks.now }
    requires from { from.at ≤ length (block_at blocks.now from.block) }
    requires to { to.at ≤ length (block_at blocks.now to.block) }
    ensures front { before blocks.now to.block to.at ≡ before blocks.now from.block from.at ++ result }
    ensures back { numbers_behind blocks.now from.block from.at ≡ result ++ numbers_behind blocks.now to.block to.at }
{
    BlockPiece {
        here: back_of(block_of(blocks, from.block), from.at),
        whole: blocks_from(blocks, from.block + 1, to.block),
        last: front_of(block_of(blocks, to.block), to.at),
    }
}

fn is_before(from: BlockPlace, to: BlockPlace) -> bool
    ensures { result ≡ is_preceded from.block from.at to.block to.at }
{
    from.block < to.block || (from.block == to.block && from.at <= to.at)
}

// The numbers from a place to a place that isn't before it.
fn piece_from(blocks: &[Vec<u32>], from: BlockPlace, to: BlockPlace) -> BlockPiece<'_>
    requires filled { AreFilled blocks.now }
    requires order { is_preceded from.block from.at to.block to.at ≡ true }
    requires inside { to.block < length blocks.now }
    requires from { from.at ≤ length (block_at blocks.now from.block) }
    requires to { to.at ≤ length (block_at blocks.now to.block) }
    ensures front { before blocks.now to.block to.at ≡ before blocks.now from.block from.at ++ result }
    ensures back { numbers_behind blocks.now from.block from.at ≡ result ++ numbers_behind blocks.now to.block to.at }
{
    if from.block < to.block {
        return piece_over(blocks, from, to);
    }
    piece_within(blocks, from.block, from.at, to.at)
}

// The numbers that fail the first test and pass the second.
pub(crate) fn piece_between<'a, A: Test, B: Test>(
    blocks: &'a [Vec<u32>],
    first: &A,
    second: &B,
) -> BlockPiece<'a>
    requires some { 0 < length blocks.now }
    requires filled { AreFilled blocks.now }
    requires first { IsParted (A.passes first.now) (flat blocks.now) }
    requires second { IsParted (B.passes second.now) (flat blocks.now) }
    ensures { result ≡ filter (λ n. not (A.passes first.now n) && B.passes second.now n) (flat blocks.now) }
{
    // Often there are no such numbers, and the first or the last number of the list shows this.
    if all_pass(blocks, first) || none_pass(blocks, second) {
        return BlockPiece::none();
    }
    let from = find(blocks, first);
    let to = find(blocks, second);
    if !is_before(from, to) {
        return BlockPiece::none();
    }
    piece_from(blocks, from, to)
}
