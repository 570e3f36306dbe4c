// lib.rt - the state as a block of bytes: twenty slots in order, four bytes each, high byte first; read and written.
// Means: specs/Block.antt.  Laws: proofs/BlockLaws.antt.
// Uses: codes, record.  Source: [K1].
#![tactic(auto)]

ghost use Rattle.std.specs.Prelude.{◌≡◌, length};
ghost use Rattle.block.specs.Block.{block_length, slots_in, block_of};

use codes::SLOTS;

pub const BLOCK_LENGTH: usize = 4 * codes::SLOTS;

pub fn slots_in(block: &[u8]) -> [u32; SLOTS]
    requires { length block.now ≡ block_length }
    ensures { result ≡ slots_in block.now }
{
    let mut s = [0; SLOTS];
    for (i, v) in s.iter_mut().enumerate() {
        *v = u32::from_be_bytes([
            block[4 * i],
            block[4 * i + 1],
            block[4 * i + 2],
            block[4 * i + 3],
        ]);
    }
    s
}

pub fn put_block(block: &mut [u8], s: &[u32; SLOTS])
    requires { length block.old ≡ block_length }
    ensures { block.new ≡ block_of s.now }
{
    for (i, v) in s.iter().enumerate() {
        block[4 * i..4 * i + 4].copy_from_slice(&v.to_be_bytes());
    }
}
