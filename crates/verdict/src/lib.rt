// Findings, verdicts and paths of a graph.
#![tactic(auto)]

ghost use Rattle.std.specs.Prelude.{◌≡◌, None, List, [], ◌++◌, map, reverse, ℕ, ◌+◌, ◌/◌, ◌%◌, ◌^◌, ◌<◌, ◌≤◌, length, drop, take};
ghost use Rattle.words.specs.Words.{word, STEP};
ghost use Rattle.grammar.specs.Programs.{Program};
ghost use Rattle.lemmas.specs.Lemmas.{Lemma};
ghost use Rattle.programs.specs.Images.{image_of};
ghost use Rattle.search.specs.Search.{Graph, Done, count};
ghost use Rattle.records.specs.Records.{most_nodes, graph_list};
ghost use Rattle.verdict.specs.Verdicts.{findings_at, findings, path_words, path_list, steps_to};
ghost use Rattle.verdict.specs.Working.{back_at, Traced, ends_to, asked_ends, found_of, Within, first_free, first_unshown, Judging};
ghost use Rattle.verdict.specs.Working.{SetsFrom, Clean};
ghost use Rattle.sets.specs.Sets.{Member};
ghost use Rattle.block.specs.Blocks.{table_words};

use programs::Image;
use records::Records;
use words::{Kind, Literals};

mod cases;

pub use cases::Case;

// How many words the path has room in.
pub const PATH_ROOM: usize = 512;

// The parent that an origin word names.
fn parent(o: u32) -> usize
    ensures { (result ≡ o / 16 % most_nodes) × (result < most_nodes) }
{
    (o / 16) as usize % words::NODES
}

// How many steps lead to the node.
fn count_steps(records: Records<'_>, node: usize) -> usize
    requires { node < most_nodes }
    ensures { (result ≡ length (back_at records.entry.list.now records.entry.actions most_nodes node)) × (result ≤ most_nodes) }
{
    let mut k = node;
    for d in 0..words::NODES {
        let o = records.origin(k);
        if o == records::root_word() {
            return d;
        }
        k = parent(o);
    }
    words::NODES
}

// The d steps to the node, written from the last to the first.
fn write_steps(records: Records<'_>, node: usize, d: usize, path: &mut [u32])
    requires { (node < most_nodes) × (d ≡ length (back_at records.list.now records.actions most_nodes node)) × (d ≤ most_nodes)
        × (d ≤ length path.old) }
    ensures { path.new ≡ map (word STEP) (reverse (back_at records.entry.list.now records.entry.actions most_nodes node)) ++ drop d path.old }
{
    let mut k = node;
    for i in (0..d).rev() {
        let o = records.origin(k);
        path[i] = Kind::STEP.word(o % 16);
        k = parent(o);
    }
}

// The steps from node 0 to the node at the front of the path list, then zeros up to 512 words.
pub fn write_path(records: Records<'_>, node: usize, path: &mut [u32])
    requires { (node < most_nodes) × (path_words ≤ length path.old) }
    ensures { (g : Graph) (l₀ : List ℕ) → records.entry.list.now ≡ graph_list records.entry.actions (Done g) l₀ → Traced records.entry.actions g
        → node < count g → path.new ≡ path_list (steps_to g node) path.old }
{
    let d = count_steps(records, node);
    records::clear(path, PATH_ROOM);
    write_steps(records, node, d, path);
}

// The path list of a verdict without a path: its first 512 words become zero.
pub fn clear_path(path: &mut [u32])
    requires { path_words ≤ length path.old }
    ensures { path.new ≡ path_list [] path.old }
{
    records::clear(path, PATH_ROOM);
}

// The places of both ends of each variable that is set.
fn ends_of(set: [bool; 8]) -> u64
    ensures { result ≡ ends_to set 8 }
{
    let mut w = 0;
    for (v, marked) in set.iter().enumerate() {
        if *marked {
            w = gather::ask_ends(w, v as u32);
        }
    }
    w
}

// For each action the places of the range ends that it has to be shown to keep to: both of each variable that it sets.
pub fn asked_ends(image: &Image) -> [u64; 16]
    requires { image.now.actions ≤ 16 }
    ensures { (p : Program) → image.now ≡ image_of p → result ≡ asked_ends p }
{
    let mut asked = [0; 16];
    for action in 0..image.actions {
        asked[action] = ends_of(image.shapes[action].set);
    }
    asked
}

// What is found.
#[derive(Clone, Copy)]
pub enum Finding {
    // Node and combination.
    Forbid(usize, usize),
    // Node, action, variable, and whether it is the high end.
    RunOff(usize, usize, usize, bool),
}

// The first of the combinations that no literal of the set contradicts.
fn first_free(combinations: &[Literals], set: u32) -> Option<usize>
    requires { set < 2 ^ 28 }
    ensures { result ≡ first_free set combinations.now }
{
    combinations
        .iter()
        .position(|c| !sets::is_opposed(c.0, set))
}

// The first end of a range that is asked for and not shown at node k, of the actions that have a successor there. The ends of variable v
// have the places 28 + 2v and 29 + 2v.
fn first_unshown(asked: [u64; 16], shown: [u64; 16], actions: usize, k: usize) -> Option<Finding>
    requires { actions ≤ 16 }
    ensures { result ≡ first_unshown asked shown k 0 actions }
{
    for j in 0..actions {
        let seen = shown[j];
        if gather::successor_of(seen).is_some() {
            let place = gather::first_missing(asked[j], seen);
            if place < 64 {
                let v = (place / 2 % 14) as usize;
                return Some(Finding::RunOff(k, j, v, place % 2 == 1));
            }
        }
    }
    None
}

// What is found first at node k: the forbidden combinations, then the ends of ranges.
fn found_at(case: &Case<'_>, k: usize) -> Option<Finding>
    requires { k < case.now.nodes }
    ensures within { Within case.now.nodes result }
    ensures found { (p : Program) (ls : List Lemma) (g : Graph) → Judging p ls g case.now → result ≡ found_of (findings_at p ls g k) }
{
    let set = case.set_at(k);
    match first_free(case.combinations(), set) {
        Some(b) => Some(Finding::Forbid(k, b)),
        None => {
            let known = gather::gather_all(case.entries, set, case.kept);
            first_unshown(case.asked, known, case.image.actions, k)
        }
    }
}

// The sets of up to 64 nodes from node k on.
fn sets_from(case: &Case<'_>, k: usize) -> [u32; 64]
    requires { k ≤ case.now.nodes }
    ensures { SetsFrom case.now k 64 result }
{
    let mut w = [0; 64];
    for (i, set) in w.iter_mut().enumerate() {
        if k + i < case.nodes {
            *set = case.set_at(k + i);
        }
    }
    w
}

// Of the 64 nodes from node k on, a bit for those with nothing to find.
pub fn clean(case: &Case<'_>, k: usize, scratch: &mut [u64]) -> u64
    requires { (k ≤ case.now.nodes) × (table_words ≤ length scratch.old) }
    ensures { Clean case.now k result }
{
    if case.nodes - k < block::LEAST {
        return 0;
    }
    let columns = block::columns(&sets_from(case, k));
    block::gather_block(case.entries, case.kept, &columns, scratch);
    let opposed = suspects::all_opposed(&columns, case.image.literals, case.image.forbidden);
    opposed & suspects::all_keep(scratch, case.asked, case.image.actions)
}

// What is found first at node k. Where its bit is in `passed` there is nothing.
fn found_in(case: &Case<'_>, k: usize, passed: u64) -> Option<Finding>
    requires { k < case.now.nodes }
    ensures within { Within case.now.nodes result }
    ensures found { (p : Program) (ls : List Lemma) (g : Graph) → Judging p ls g case.now
        → (Member (k % 64) passed → None ≡ found_of (findings_at p ls g k)) → result ≡ found_of (findings_at p ls g k) }
{
    if (passed >> (k % 64)) % 2 == 1 {
        None
    } else {
        found_at(case, k)
    }
}

// What is found first in the graph; `scratch` is worked in.
pub fn first_finding(case: &Case<'_>, scratch: &mut [u64]) -> Option<Finding>
    requires { table_words ≤ length scratch.old }
    ensures within { Within case.now.nodes result }
    ensures found { (p : Program) (ls : List Lemma) (g : Graph) → Judging p ls g case.now → result ≡ found_of (findings p ls g) }
{
    let mut passed = 0;
    for k in 0..case.nodes {
        if k % 64 == 0 {
            passed = clean(case, k, scratch);
        }
        let found = found_in(case, k, passed);
        if found.is_some() {
            return found;
        }
    }
    None
}
