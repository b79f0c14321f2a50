// Adding a number to its block. A full block is cut in two.
ghost use Rattle.std.specs.Prelude.{◌≡◌, ◌≤◌, ◌<◌, true, [], ◌∷◌, ◌++◌, length, take, drop, insert};
ghost use Rattle.std.specs.Prelude.{vec_len, vec_capacity};
ghost use Rattle.std.specs.Bool.{OnTrue, OnFalse};
ghost use Rattle.name_index.specs.declared.put.TheConstants.{BLOCK, HALF};
ghost use Rattle.name_index.specs.Places.{flat, AreBlocks, block_at, before, numbers_behind, has_block_room, IsHalved};

use crate::search::{BlockPlace, back_of, block_of};
use std::mem::replace;

// The most numbers that a block can have.
pub(crate) const BLOCK: usize = 1024;

pub(crate) const HALF: usize = 512;

fn has_space(block: &[u32]) -> bool
    ensures space { OnTrue result (length block.now < BLOCK) }
    ensures full { OnFalse result (BLOCK ≤ length block.now) }
{
    block.len() < BLOCK
}

// Inserts a number in a block that isn't full.
fn put_in_block(block: &mut Vec<u32>, at: usize, number: u32)
    requires at { at ≤ length block.old.items }
    requires room { length block.old.items < vec_capacity block.old }
    ensures items { block.new.items ≡ insert block.old.items at number }
    ensures capacity { vec_capacity block.old ≤ vec_capacity block.new }
{
    if block.insert(at, number).is_err() {
        unreachable!();
    }
}

// Moves the second half of a full block to an empty block.
fn move_half(block: &mut Vec<u32>, half: &mut Vec<u32>)
    requires full { length block.old.items ≡ BLOCK }
    requires empty { half.old.items ≡ [] }
    requires room { BLOCK ≤ vec_capacity half.old }
    ensures front { block.new.items ≡ take HALF block.old.items }
    ensures back { half.new.items ≡ drop HALF block.old.items }
    ensures capacity { vec_capacity block.old ≤ vec_capacity block.new }
    ensures half_capacity { vec_capacity half.old ≤ vec_capacity half.new }
{
    match half.extend_from_slice(back_of(block, HALF)) {
        Ok(()) => block.truncate(HALF),
        Err(_) => unreachable!(),
    }
}

// Cuts a full block in two. The second half moves into the empty block `half`.
fn cut_block(blocks: &mut Vec<Vec<u32>>, mut half: Vec<u32>, block: usize)
    requires inside { block < length blocks.old.items }
    requires blocks { AreBlocks blocks.old.items }
    requires full { length (block_at blocks.old.items block) ≡ BLOCK }
    requires room { length blocks.old.items < vec_capacity blocks.old }
    requires empty { half.items ≡ [] }
    requires half_room { BLOCK ≤ vec_capacity half }
    ensures { IsHalved blocks.old.items blocks.new.items block }
{
    move_half(&mut blocks[block], &mut half);
    if blocks.insert(block + 1, half).is_err() {
        unreachable!();
    }
}

// Takes the spare block, and leaves an empty block without memory.
pub(crate) fn take_spare(spare: &mut Vec<u32>) -> Vec<u32>
    ensures taken { result ≡ spare.old }
    ensures left { spare.new.items ≡ [] }
{
    let empty = Vec::new(*spare.allocator());
    replace(spare, empty)
}

// Makes space at a place: if its block is full, the block is cut in two. Returns the place where the number belongs
// then.
fn make_space(blocks: &mut Vec<Vec<u32>>, spare: &mut Vec<u32>, place: BlockPlace) -> BlockPlace
    requires inside { place.block < length blocks.old.items }
    requires within { place.at ≤ length (block_at blocks.old.items place.block) }
    requires blocks { AreBlocks blocks.old.items }
    requires room { has_block_room blocks.old spare.old ≡ true }
    requires empty { spare.old.items ≡ [] }
    ensures inside { result.block < length blocks.new.items }
    ensures within { result.at ≤ length (block_at blocks.new.items result.block) }
    ensures space { length (block_at blocks.new.items result.block) < BLOCK }
    ensures blocks { AreBlocks blocks.new.items }
    ensures empty { spare.new.items ≡ [] }
    ensures front { before blocks.new.items result.block result.at ≡ before blocks.old.items place.block place.at }
    ensures back { numbers_behind blocks.new.items result.block result.at ≡ numbers_behind blocks.old.items place.block place.at }
{
    if has_space(block_of(blocks, place.block)) {
        return place;
    }
    cut_block(blocks, take_spare(spare), place.block);
    if place.at <= HALF {
        return place;
    }
    BlockPlace {
        block: place.block + 1,
        at: place.at - HALF,
    }
}

// Inserts a number at a place in a block that isn't full.
fn put_there(blocks: &mut Vec<Vec<u32>>, place: BlockPlace, number: u32)
    requires inside { place.block < length blocks.old.items }
    requires within { place.at ≤ length (block_at blocks.old.items place.block) }
    requires space { length (block_at blocks.old.items place.block) < BLOCK }
    requires blocks { AreBlocks blocks.old.items }
    ensures blocks { AreBlocks blocks.new.items }
    ensures put { flat blocks.new.items ≡ before blocks.old.items place.block place.at ++ (number ∷ numbers_behind blocks.old.items place.block place.at) }
{
    put_in_block(&mut blocks[place.block], place.at, number);
}

// Inserts a number at a place. Allocates: no.
pub(crate) fn put_at(
    blocks: &mut Vec<Vec<u32>>,
    spare: &mut Vec<u32>,
    place: BlockPlace,
    number: u32,
)
    requires inside { place.block < length blocks.old.items }
    requires within { place.at ≤ length (block_at blocks.old.items place.block) }
    requires blocks { AreBlocks blocks.old.items }
    requires room { has_block_room blocks.old spare.old ≡ true }
    requires empty { spare.old.items ≡ [] }
    ensures blocks { AreBlocks blocks.new.items }
    ensures empty { spare.new.items ≡ [] }
    ensures put { flat blocks.new.items ≡ before blocks.old.items place.block place.at ++ (number ∷ numbers_behind blocks.old.items place.block place.at) }
{
    let place = make_space(blocks, spare, place);
    put_there(blocks, place, number);
}

// Adds the first number of the list, in an empty block.
pub(crate) fn put_first(blocks: &mut Vec<Vec<u32>>, mut block: Vec<u32>, number: u32)
    requires none { blocks.old.items ≡ [] }
    requires room { length blocks.old.items < vec_capacity blocks.old }
    requires empty { block.items ≡ [] }
    requires block_room { BLOCK ≤ vec_capacity block }
    ensures blocks { AreBlocks blocks.new.items }
    ensures put { flat blocks.new.items ≡ number ∷ [] }
{
    block.push_reserved(number);
    blocks.push_reserved(block);
}
