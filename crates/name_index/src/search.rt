// Finding the end of a test by binary searches: all numbers before it pass.
ghost use Rattle.std.specs.Bool.{OnTrue};
ghost use Rattle.std.specs.Prelude.{◌≡◌, ℕ, ◌≤◌, ◌<◌, Bool, true, false, length, take, drop};
ghost use Rattle.std.specs.List.Sorted.{IsPartitionPoint};
ghost use Rattle.name_index.specs.Blocks.{AllAre, IsParted};
ghost use Rattle.name_index.specs.Places.{flat, AreFilled, block_at, before, numbers_behind, last_passes};

// A test of numbers.
pub(crate) trait Test {
    // Which numbers pass.
    ghost passes: { Self → ℕ → Bool };

    // Whether a number passes.
    fn test(&self, number: u32) -> bool
        ensures { result ≡ passes self.now number };
}

// A place in a block: the block's index, and an index in the block, which can be the block's length.
#[derive(Clone, Copy)]
pub(crate) struct BlockPlace {
    pub(crate) block: usize,
    pub(crate) at: usize,
}

// The numbers of a block.
pub(crate) fn block_of(blocks: &[Vec<u32>], block: usize) -> &[u32]
    requires { block < length blocks.now }
    ensures { result.now ≡ block_at blocks.now block }
{
    &blocks[block]
}

// The numbers of a block from an index on.
pub(crate) fn back_of(block: &[u32], from: usize) -> &[u32]
    requires { from ≤ length block.now }
    ensures { result.now ≡ drop from block.now }
{
    &block[from..]
}

#[inline(always)]
fn last_passes<T: Test>(block: &[u32], test: &T) -> bool
    ensures { result ≡ last_passes (T.passes test.now) block.now }
{
    match block {
        [] => true,
        [.., last] => test.test(*last),
    }
}

// How many blocks end with a number that passes.
fn count_blocks<T: Test>(blocks: &[Vec<u32>], test: &T) -> usize
    requires filled { AreFilled blocks.now }
    requires parted { IsParted (T.passes test.now) (flat blocks.now) }
    ensures bound { result ≤ length blocks.now }
    ensures point { IsPartitionPoint (λ b. last_passes (T.passes test.now) b.items ≡ true) (λ b. last_passes (T.passes test.now) b.items ≡ false) blocks.now result }
{
    blocks.partition_point(|block| last_passes(block, test))
}

// How many numbers of a block pass.
fn count_in<T: Test>(block: &[u32], test: &T) -> usize
    requires { IsParted (T.passes test.now) block.now }
    ensures bound { result ≤ length block.now }
    ensures passing { AllAre (T.passes test.now) true (take result block.now) }
    ensures failing { AllAre (T.passes test.now) false (drop result block.now) }
{
    block.partition_point(|number| test.test(*number))
}

// The first block that ends with a number that fails, or else the last block.
pub(crate) fn find_block<T: Test>(blocks: &[Vec<u32>], test: &T) -> usize
    requires some { 0 < length blocks.now }
    requires filled { AreFilled blocks.now }
    requires parted { IsParted (T.passes test.now) (flat blocks.now) }
    ensures inside { result < length blocks.now }
    ensures passing { AllAre (T.passes test.now) true (before blocks.now result 0) }
    ensures failing { AllAre (T.passes test.now) false (numbers_behind blocks.now result (length (block_at blocks.now result))) }
{
    let block = count_blocks(blocks, test);
    if block == blocks.len() {
        block - 1
    } else {
        block
    }
}

// Whether all numbers pass: this is so if the last number passes.
pub(crate) fn all_pass<T: Test>(blocks: &[Vec<u32>], test: &T) -> bool
    requires some { 0 < length blocks.now }
    requires filled { AreFilled blocks.now }
    requires parted { IsParted (T.passes test.now) (flat blocks.now) }
    ensures { OnTrue result (AllAre (T.passes test.now) true (flat blocks.now)) }
{
    last_passes(block_of(blocks, blocks.len() - 1), test)
}

// Whether no number passes: this is so if the first number fails.
pub(crate) fn none_pass<T: Test>(blocks: &[Vec<u32>], test: &T) -> bool
    requires some { 0 < length blocks.now }
    requires parted { IsParted (T.passes test.now) (flat blocks.now) }
    ensures { OnTrue result (AllAre (T.passes test.now) false (flat blocks.now)) }
{
    match block_of(blocks, 0) {
        [first, ..] => !test.test(*first),
        [] => false,
    }
}

// The place of the first number that fails, or else the end of the list.
pub(crate) fn find<T: Test>(blocks: &[Vec<u32>], test: &T) -> BlockPlace
    requires some { 0 < length blocks.now }
    requires filled { AreFilled blocks.now }
    requires parted { IsParted (T.passes test.now) (flat blocks.now) }
    ensures inside { result.block < length blocks.now }
    ensures within { result.at ≤ length (block_at blocks.now result.block) }
    ensures passing { AllAre (T.passes test.now) true (before blocks.now result.block result.at) }
    ensures failing { AllAre (T.passes test.now) false (numbers_behind blocks.now result.block result.at) }
{
    let block = find_block(blocks, test);
    let at = count_in(block_of(blocks, block), test);
    BlockPlace { block, at }
}
