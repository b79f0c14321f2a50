// A list of numbers in blocks: adding, removing and finding numbers.
ghost use Rattle.std.specs.Prelude.{◌≡◌, true, false, not, ◌&&◌, [], IsOk, OnOk, filter, Contains};
ghost use Rattle.name_index.specs.Blocks.{IsParted, IsPut, RemovesNumber};

use crate::piece::{BlockPiece, all_of, piece_between};
use crate::put::{BLOCK, put_at, put_first, take_spare};
use crate::search::{Test, find, find_block};
use crate::take::{place_of, take_and_join};
use std::alloc::{AllocError, Global};
use std::marker::Model;

// A list of numbers. Contracts see the list, and whether memory for one number more is reserved.
//
// A `Test` that holds for a prefix of the list says where a number belongs, or which numbers are wanted. Two binary
// searches, over the blocks and in one block, find the end of this prefix.
#[derive(Drop)]
pub(crate) struct Blocks {
    blocks: Vec<Vec<u32>>,
    // An empty block, to be used if a block is full.
    spare: Vec<u32>,
}

impl Model for Blocks {
    ghost use Rattle.std.specs.Prelude.{◌≡◌, []};
    ghost use Rattle.name_index.specs.Blocks.{Numbers};

    ghost Value = { Numbers };

    ghost use Rattle.name_index.specs.Places.{AreBlocks, numbers_of_blocks, has_block_room};

    ghost view = { λ b. numbers_of_blocks b.blocks.items (has_block_room b.blocks b.spare) };

    ghost invariant = { λ b. AreBlocks b.blocks.items × (b.spare.items ≡ []) };
}

impl Blocks {
    // No numbers. Allocates: no.
    pub(crate) fn new(alloc: Global) -> Blocks
        ensures { result.items ≡ [] }
    {
        Blocks {
            blocks: Vec::new(alloc),
            spare: Vec::new(alloc),
        }
    }

    // Reserves the memory for one number more: a block of 4 KB, unless an empty block is there already. Fails only if
    // memory ran out. This can't happen if memory for one number more was reserved already.
    pub(crate) fn reserve(&mut self) -> Result<(), AllocError>
        ensures items { self.new.items ≡ self.old.items }
        ensures ready { OnOk result (self.new.ready ≡ true) }
        ensures succeeds { self.old.ready ≡ true → IsOk result }
    {
        self.blocks.reserve(1)?;
        self.spare.reserve_exact(BLOCK)
    }

    // Adds a number after the numbers that pass the test, and before those that fail. Allocates: no.
    pub(crate) fn put<T: Test>(&mut self, test: &T, number: u32)
        requires ready { self.old.ready ≡ true }
        requires parted { IsParted (T.passes test.now) self.old.items }
        ensures { IsPut (T.passes test.now) number self.old.items self.new.items }
    {
        if self.blocks.is_empty() {
            put_first(&mut self.blocks, take_spare(&mut self.spare), number);
            return;
        }
        let place = find(&self.blocks, test);
        put_at(&mut self.blocks, &mut self.spare, place, number);
    }

    // Removes a number that fails the test. The number is searched among the numbers that fail, from the first of
    // them. Allocates: no.
    pub(crate) fn take<T: Test>(&mut self, test: &T, number: u32)
        requires parted { IsParted (T.passes test.now) self.old.items }
        requires fails { T.passes test.now number ≡ false }
        requires there { Contains self.old.items number }
        ensures { RemovesNumber number self.old.items self.new.items }
    {
        if self.blocks.is_empty() {
            unreachable!();
        }
        let from = find_block(&self.blocks, test);
        let place = place_of(&self.blocks, from, number);
        take_and_join(&mut self.blocks, place);
    }

    // All numbers of the list.
    pub(crate) fn all(&self) -> BlockPiece<'_>
        ensures { result ≡ self.now.items }
    {
        all_of(&self.blocks)
    }

    // The numbers that fail the first test and pass the second, found by a binary search for each test. Allocates: no.
    pub(crate) fn between<A: Test, B: Test>(&self, first: &A, second: &B) -> BlockPiece<'_>
        requires first { IsParted (A.passes first.now) self.now.items }
        requires second { IsParted (B.passes second.now) self.now.items }
        ensures { result ≡ filter (λ n. not (A.passes first.now n) && B.passes second.now n) self.now.items }
    {
        if self.blocks.is_empty() {
            return BlockPiece::none();
        }
        piece_between(&self.blocks, first, second)
    }
}
