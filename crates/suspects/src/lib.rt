// The nodes of a block at which nothing can be found: they contradict each forbidden combination, and each action keeps to its ends there.
#![tactic(auto)]

ghost use Rattle.std.specs.Prelude.{◌≡◌, List, ℕ, ◌<◌, ◌≤◌, length};
ghost use Rattle.gather.specs.declared.Entry.{Entry};
ghost use Rattle.block.specs.Blocks.{table_words, Columns, Block};
ghost use Rattle.suspects.specs.Suspects.{Any, Small, Opposed, AllOpposed, Keeps, AllKeep};

use words::Literals;

// Nodes that have a literal of a set, and no others.
fn any_of(columns: &[u64; 64], set: u32) -> u64
    ensures { Any columns.now set result }
{
    let mut r = 0;
    let mut s = set;
    // A while: no iterator goes over the ones of a word.
    while s != 0 {
        let c = s.trailing_zeros() as usize;
        r |= columns[c];
        s &= s - 1;
    }
    r
}

// Nodes that contradict a combination.
fn opposed(columns: &[u64; 64], set: u32) -> u64
    ensures { (nodes : List ℕ) → Small nodes → Columns nodes columns.now → Opposed nodes set result }
{
    if set < 268435456 {
        any_of(columns, sets::swapped(set))
    } else {
        0
    }
}

// Nodes that contradict each of the first n combinations.
pub fn all_opposed(columns: &[u64; 64], literals: [Literals; 8], n: usize) -> u64
    requires { n ≤ 8 }
    ensures { (nodes : List ℕ) → Small nodes → Columns nodes columns.now → AllOpposed nodes literals n result }
{
    let mut r = u64::MAX;
    for c in &literals[..n] {
        r &= opposed(columns, c.0);
    }
    r
}

// Nodes at which action j has no successor, or is shown to keep to the ends that are asked for.
fn keeps(table: &[u64], j: usize, asked: u64) -> u64
    requires { (j < 16) × (table_words ≤ length table.now) }
    ensures { (kept nodes : List ℕ) (es : List Entry) → Block kept nodes es table.now → Keeps kept nodes es asked j result }
{
    let shown = block::meet(table, j * 64, asked);
    block::none_at(table, j) | shown
}

// The same for each action.
pub fn all_keep(table: &[u64], asked: [u64; 16], actions: usize) -> u64
    requires { (actions ≤ 16) × (table_words ≤ length table.now) }
    ensures { (kept nodes : List ℕ) (es : List Entry) → Block kept nodes es table.now → AllKeep kept nodes es asked actions result }
{
    let mut r = u64::MAX;
    for (j, places) in asked[..actions].iter().enumerate() {
        r &= keeps(table, j, *places);
    }
    r
}
