// What the accepted lemmas show at 64 nodes at once.
#![tactic(auto)]

ghost use Rattle.std.specs.Prelude.{◌≡◌, List, ℕ, ◌+◌, ◌*◌, ◌%◌, ◌^◌, ◌<◌, ◌≤◌, length, get_or};
ghost use Rattle.sets.specs.Sets.{bit_of, Member, within};
ghost use Rattle.gather.specs.declared.Entry.{Entry};
ghost use Rattle.block.specs.Blocks.{table_words, Columns, Meets, Row, Rows, Block, Words, half_of, digit, Gone};

use gather::Entry;

// How many words a table has: 64 places for each of 16 actions.
pub const TABLE: usize = 1024;

// Where so many nodes wait, a block is quicker than a pass over the entries for each.
pub const LEAST: usize = 6;

// The columns of 64 nodes' words.
pub fn columns(nodes: &[u32; 64]) -> [u64; 64]
    ensures { Columns nodes.now result }
{
    let mut a = [0; 64];
    for (i, node) in nodes.iter().enumerate() {
        a[i] = u64::from(*node);
    }
    transpose::transpose(a)
}

// The nodes that have a bit in each word of a set of words, which are numbered from `at` on.
pub fn meet(words: &[u64], at: usize, set: u64) -> u64
    requires { (c : ℕ) → Member c set → at + c < length words.now }
    ensures { Meets words.now at set result }
{
    let mut q = u64::MAX;
    let mut s = set;
    // A while: no iterator goes over the ones of a word.
    while s != 0 {
        let c = s.trailing_zeros() as usize;
        q &= words[at + c];
        s &= s - 1;
    }
    q
}

// The column, if the mask has the literal p.
fn chosen(mask: u64, p: usize, column: u64) -> u64
    requires { p < 64 }
    ensures { result ≡ bit_of p mask * column }
{
    if (mask >> p) % 2 == 1 { column } else { 0 }
}

// The words of one action, from `at` on: the nodes that have each literal of the mask.
fn keep(table: &mut [u64], at: usize, mask: u64, columns: &[u64; 64])
    requires { at + 64 ≤ length table.old }
    ensures { Row table.old at mask columns.now 64 table.new }
{
    for (p, column) in columns.iter().enumerate() {
        table[at + p] = chosen(mask, p, *column);
    }
}

// The same for the mask of each action.
fn keep_all(kept: &[u32], columns: &[u64; 64], table: &mut [u64])
    requires { (16 ≤ length kept.now) × (table_words ≤ length table.old) }
    ensures { Rows kept.now columns.now 16 table.new }
{
    for a in 0..16 {
        keep(table, a * 64, u64::from(kept[a]), columns);
    }
}

// The nodes with these columns that have each of an entry's premises.
fn met(columns: &[u64; 64], entry: Entry) -> u64
    ensures { (nodes : List ℕ) (i : ℕ) → Columns nodes columns.now → i < 64
        → bit_of i result ≡ digit (within entry.premises (get_or nodes i 0)) }
{
    meet(columns, 0, u64::from(entry.premises))
}

// What is known after each action at the nodes with these columns, by what its mask keeps and by the entries: a word for each action and place, with a bit
// for each node.
pub fn gather_block(entries: &[Entry], kept: &[u32], columns: &[u64; 64], table: &mut [u64])
    requires { (16 ≤ length kept.now) × (table_words ≤ length table.old) }
    ensures { (nodes : List ℕ) → Columns nodes columns.now → Block kept.now nodes entries.now table.new }
{
    keep_all(kept, columns, table);
    for entry in entries {
        if entry.key < 1024 {
            table[entry.key as usize] |= met(columns, *entry);
        }
    }
}

// The words after the nodes by actions 2h and 2h + 1: word i has those after node i, the first in its low half, the second in its high half.
pub fn words_of(table: &[u64], h: usize) -> [u64; 64]
    requires { (h < 8) × (table_words ≤ length table.now) }
    ensures { (kept nodes : List ℕ) (es : List Entry) → Block kept nodes es table.now → Words h kept nodes es result }
{
    let at = h * 128;
    let mut a = [0; 64];
    for p in 0..28 {
        a[p] = table[at + p];
        a[32 + p] = table[at + (64 + p)];
    }
    transpose::transpose(a)
}

// The nodes that have no successor by action j.
pub fn none_at(table: &[u64], j: usize) -> u64
    requires { (j < 16) × (table_words ≤ length table.now) }
    ensures { (kept nodes : List ℕ) (es : List Entry) → Block kept nodes es table.now → Gone j kept nodes es result }
{
    let at = j * 64;
    let mut r = table[at + 44];
    for p in 0..14 {
        r |= table[at + p] & table[at + (14 + p)];
    }
    r
}

// The literals in the half of a word that belongs to action j.
pub fn half(w: u64, j: usize) -> u32
    ensures { (result ≡ half_of w (j % 2)) × (result < 2 ^ 28) }
{
    if j % 2 == 0 {
        (w % 268435456) as u32
    } else {
        (w / 4294967296 % 268435456) as u32
    }
}
