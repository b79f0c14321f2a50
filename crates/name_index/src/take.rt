// Removing a number from its block.
ghost use Rattle.std.specs.Prelude.{◌≡◌, ◌≤◌, ◌<◌, ◌+◌, true, nat_eq, [], ◌∷◌, ◌++◌, length};
ghost use Rattle.std.specs.Prelude.{vec_capacity};
ghost use Rattle.std.specs.Bool.{OnTrue};
ghost use Rattle.std.specs.List.{list_any, remove, position};
ghost use Rattle.name_index.specs.declared.put.TheConstants.{HALF};
ghost use Rattle.name_index.specs.Places.{flat, AreBlocks, block_at, before, numbers_behind};

use crate::put::HALF;
use crate::search::{BlockPlace, block_of};

// The index of a number in a block, if it is there.
fn place_in(block: &[u32], number: u32) -> Option<usize>
    ensures { result ≡ position (λ x. nat_eq x number) block.now }
{
    block.iter().position(|other| *other == number)
}

// The first place of a number, searched from the block `from` on.
pub(crate) fn place_of(blocks: &[Vec<u32>], from: usize, number: u32) -> BlockPlace
    requires { list_any (λ x. nat_eq x number) (numbers_behind blocks.now from 0) ≡ true }
    ensures inside { result.block < length blocks.now }
    ensures within { result.at < length (block_at blocks.now result.block) }
    ensures is { numbers_behind blocks.now result.block result.at ≡ number ∷ numbers_behind blocks.now result.block (result.at + 1) }
{
    let mut block = from;
    while block < blocks.len() {
        if let Some(at) = place_in(block_of(blocks, block), number) {
            return BlockPlace { block, at };
        }
        block += 1;
    }
    unreachable!()
}

fn take_in_block(block: &mut Vec<u32>, at: usize)
    requires { at < length block.old.items }
    ensures items { block.new.items ≡ remove block.old.items at }
    ensures capacity { vec_capacity block.new ≡ vec_capacity block.old }
{
    let _ = block.remove(at);
}

fn take_block(blocks: &mut Vec<Vec<u32>>, block: usize)
    requires { block < length blocks.old.items }
    ensures { blocks.new.items ≡ remove blocks.old.items block }
{
    let _ = blocks.remove(block);
}

// Removes the number at a place. If it was the only number of its block, the block is removed, too. Allocates: no.
fn take_at(blocks: &mut Vec<Vec<u32>>, place: BlockPlace)
    requires inside { place.block < length blocks.old.items }
    requires within { place.at < length (block_at blocks.old.items place.block) }
    requires blocks { AreBlocks blocks.old.items }
    ensures blocks { AreBlocks blocks.new.items }
    ensures taken { flat blocks.new.items ≡ before blocks.old.items place.block place.at ++ numbers_behind blocks.old.items place.block (place.at + 1) }
{
    if block_of(blocks, place.block).len() == 1 {
        take_block(blocks, place.block);
        return;
    }
    take_in_block(&mut blocks[place.block], place.at);
}

// Whether a block and the next block together would fill at most half a block.
fn are_small(blocks: &[Vec<u32>], first: usize) -> bool
    ensures inside { OnTrue result (first + 1 < length blocks.now) }
    ensures few { OnTrue result (length (block_at blocks.now first) + length (block_at blocks.now (first + 1)) ≤ HALF) }
{
    if first >= blocks.len() || first + 1 >= blocks.len() {
        return false;
    }
    block_of(blocks, first).len() + block_of(blocks, first + 1).len() <= HALF
}

fn append(block: &mut Vec<u32>, more: &[u32])
    requires { length block.old.items + length more.now ≤ vec_capacity block.old }
    ensures items { block.new.items ≡ block.old.items ++ more.now }
    ensures capacity { vec_capacity block.old ≤ vec_capacity block.new }
{
    if block.extend_from_slice(more).is_err() {
        unreachable!();
    }
}

// Moves the numbers of the next block to the end of a block, and removes the next block.
fn join_next(blocks: &mut Vec<Vec<u32>>, first: usize)
    requires inside { first + 1 < length blocks.old.items }
    requires few { length (block_at blocks.old.items first) + length (block_at blocks.old.items (first + 1)) ≤ HALF }
    requires blocks { AreBlocks blocks.old.items }
    ensures blocks { AreBlocks blocks.new.items }
    ensures same { flat blocks.new.items ≡ flat blocks.old.items }
{
    let next = blocks.remove(first + 1);
    append(&mut blocks[first], &next);
}

// Joins a block with a neighbour if both together fill at most half a block. So few numbers take few blocks.
fn join(blocks: &mut Vec<Vec<u32>>, block: usize)
    requires blocks { AreBlocks blocks.old.items }
    ensures blocks { AreBlocks blocks.new.items }
    ensures same { flat blocks.new.items ≡ flat blocks.old.items }
{
    if are_small(blocks, block) {
        join_next(blocks, block);
        return;
    }
    if block > 0 && are_small(blocks, block - 1) {
        join_next(blocks, block - 1);
    }
}

// Removes the number at a place. Joins its block with a neighbour if both together fill at most half a block.
// Allocates: no.
pub(crate) fn take_and_join(blocks: &mut Vec<Vec<u32>>, place: BlockPlace)
    requires inside { place.block < length blocks.old.items }
    requires within { place.at < length (block_at blocks.old.items place.block) }
    requires blocks { AreBlocks blocks.old.items }
    ensures blocks { AreBlocks blocks.new.items }
    ensures taken { flat blocks.new.items ≡ before blocks.old.items place.block place.at ++ numbers_behind blocks.old.items place.block (place.at + 1) }
{
    take_at(blocks, place);
    join(blocks, place.block);
}
