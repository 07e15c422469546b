// The successors of 64 nodes by all actions, ready to be asked for. They stand in a lent list, behind the table that they are made of.
#![tactic(auto)]

ghost use Rattle.std.specs.Prelude.{◌≡◌, List, ℕ, ◌+◌, ◌<◌, ◌≤◌, length, get_or};
ghost use Rattle.gather.specs.declared.Entry.{Entry};
ghost use Rattle.gather.specs.Gathering.{successor_of};
ghost use Rattle.block.specs.Blocks.{Block, after};
ghost use Rattle.ready.specs.Ready.{scratch_words, Stored, Ready, Fit};

use gather::Entry;

// How many words a table and the successors that are made of it have room in.
pub const SCRATCH: usize = block::TABLE + 512;

// 64 words, written from `at` on.
fn store(scratch: &mut [u64], at: usize, w: &[u64; 64])
    requires { at + 64 ≤ length scratch.old }
    ensures { Stored scratch.old at w.now 64 scratch.new }
{
    scratch[at..at + 64].copy_from_slice(w);
}

// The words after the nodes by each two actions, behind the table, and for each action the nodes that have no successor.
fn successors(scratch: &mut [u64]) -> [u64; 16]
    requires { scratch_words ≤ length scratch.old }
    ensures { (kept nodes : List ℕ) (es : List Entry) → Block kept nodes es scratch.old → Ready kept nodes es 8 scratch.new result }
{
    let mut gone = [0; 16];
    for h in 0..8 {
        let w = block::words_of(scratch, h);
        store(scratch, block::TABLE + h * 64, &w);
        gone[2 * h] = block::none_at(scratch, 2 * h);
        gone[2 * h + 1] = block::none_at(scratch, 2 * h + 1);
    }
    gone
}

// The successor of node i by action j.
pub fn successor_in(scratch: &[u64], gone: [u64; 16], j: usize, i: usize) -> Option<u32>
    requires { (scratch_words ≤ length scratch.now) × (j < 16) × (i < 64) }
    ensures { Fit result × ((kept nodes : List ℕ) (es : List Entry) → Ready kept nodes es 8 scratch.now gone
        → result ≡ successor_of (after kept j (get_or nodes i 0) es)) }
{
    if (gone[j] >> i) % 2 == 1 {
        None
    } else {
        Some(block::half(scratch[block::TABLE + j / 2 * 64 + i], j))
    }
}

// The successors of the nodes with these words, and for each action the nodes that have none.
pub fn ready_block(
    entries: &[Entry],
    kept: &[u32],
    words: &[u32; 64],
    scratch: &mut [u64],
) -> [u64; 16]
    requires { (16 ≤ length kept.now) × (scratch_words ≤ length scratch.old) }
    ensures { Ready kept.now words.now entries.now 8 scratch.new result }
{
    let columns = block::columns(words);
    block::gather_block(entries, kept, &columns, scratch);
    successors(scratch)
}
