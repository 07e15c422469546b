// The findings of a graph as words of kind 14, laid one after the other in a list, as many as it has room for.
#![tactic(auto)]

ghost use Rattle.std.specs.Prelude.{◌≡◌, None, List, ◌+◌, ◌*◌, ◌/◌, ◌%◌, ◌^◌, ◌<◌, ◌≤◌, length, set};
ghost use Rattle.words.specs.Limits.{most_forbidden, most_actions};
ghost use Rattle.words.specs.LiteralSets.{has};
ghost use Rattle.grammar.specs.Programs.{Program};
ghost use Rattle.lemmas.specs.Lemmas.{Lemma};
ghost use Rattle.search.specs.Search.{Graph};
ghost use Rattle.records.specs.Records.{most_nodes};
ghost use Rattle.block.specs.Blocks.{table_words};
ghost use Rattle.verdict.specs.Verdicts.{findings_at, findings};
ghost use Rattle.verdict.specs.declared.Finding.TheVariants.{Forbid};
ghost use Rattle.verdict.specs.Working.{Judging, found_of};
ghost use Rattle.sets.specs.Sets.{Member};
ghost use Rattle.sheet.specs.Sheets.{finding_word};
ghost use Rattle.sheet.specs.Laying.{Laid, end_at, free, missed, offs};

use verdict::Case;
use words::{Kind, Literals};

// A word at place i of a list, if it has that place. Written by index: after a `get_mut` the proof would know the list's length only.
fn put(list: &mut [u32], i: usize, w: u32)
    ensures { list.new ≡ set list.old i w }
{
    if i < list.len() {
        list[i] = w;
    }
}

// The word of a node that may meet a forbidden combination.
fn forbid_word(k: usize, b: usize) -> u32
    requires { (k < most_nodes) × (b < most_forbidden) }
    ensures { result ≡ finding_word (Forbid k b) }
{
    Kind::FINDING.word(k as u32 * 524288 + b as u32 * 2048)
}

// The word of an end of a range that is not shown. The ends of variable v have the places 28 + 2v and 29 + 2v.
fn run_off_word(k: usize, j: usize, place: u32) -> u32
    requires { (k < most_nodes) × (j < most_actions) × (28 ≤ place) × (place < 44) }
    ensures { result ≡ finding_word (end_at k j place) }
{
    let head = k as u32 * 524288 + 262144 + j as u32 * 16384;
    Kind::FINDING.word(head + place / 2 % 14 * 2048 + place % 2)
}

// Does the word have this place?
fn has_place(w: u64, place: u32) -> bool
    requires { place < 64 }
    ensures { result ≡ has place w }
{
    (w >> place) % 2 == 1
}

// The combinations that no literal of the set contradicts, from place i of the list on. The place behind them.
fn lay_free(combinations: &[Literals], set: u32, k: usize, list: &mut [u32], i: usize) -> usize
    requires { (length combinations.now ≤ most_forbidden) × (set < 2 ^ 28) × (k < most_nodes) × (i < 2 ^ 32) }
    ensures { (result ≤ i + most_forbidden) × Laid (free set k 0 combinations.now) list.old i list.new result }
{
    let mut at = i;
    for (b, c) in combinations.iter().enumerate() {
        if !sets::is_opposed(c.0, set) {
            put(list, at, forbid_word(k, b));
            at += 1;
        }
    }
    at
}

// The ends of one action that are missing.
fn lay_missed(missing: u64, k: usize, j: usize, list: &mut [u32], i: usize) -> usize
    requires { (k < most_nodes) × (j < most_actions) × (i < 2 ^ 32) }
    ensures { (result ≤ i + 16) × Laid (missed missing k j 28 16) list.old i list.new result }
{
    let mut at = i;
    for place in 28..44 {
        if has_place(missing, place) {
            put(list, at, run_off_word(k, j, place));
            at += 1;
        }
    }
    at
}

// The same of each action that has a successor.
fn lay_off(
    asked: [u64; 16],
    shown: [u64; 16],
    actions: usize,
    k: usize,
    list: &mut [u32],
    i: usize,
) -> usize
    requires { (actions ≤ most_actions) × (k < most_nodes) × (i < 2 ^ 31) }
    ensures { (result ≤ i + actions * 16) × Laid (offs asked shown k 0 actions) list.old i list.new result }
{
    let mut at = i;
    for j in 0..actions {
        let seen = shown[j];
        if gather::successor_of(seen).is_some() {
            at = lay_missed(gather::missing(asked[j], seen), k, j, list, at);
        }
    }
    at
}

// All that is found at node k: the forbidden combinations, then the ends of ranges.
fn lay_at(case: &Case<'_>, k: usize, list: &mut [u32], i: usize) -> usize
    requires { (k < case.now.nodes) × (i ≤ k * 264) }
    ensures few { result ≤ (k + 1) * 264 }
    ensures laid { (p : Program) (ls : List Lemma) (g : Graph) → Judging p ls g case.now → Laid (findings_at p ls g k) list.old i list.new result }
{
    let set = case.set_at(k);
    let at = lay_free(case.combinations(), set, k, list, i);
    let known = gather::gather_all(case.entries, set, case.kept);
    lay_off(case.asked, known, case.image.actions, k, list, at)
}

// The same at node k. Where its bit is in `passed` there is nothing.
fn lay_in(case: &Case<'_>, k: usize, passed: u64, list: &mut [u32], i: usize) -> usize
    requires { (k < case.now.nodes) × (i ≤ k * 264) }
    ensures few { result ≤ (k + 1) * 264 }
    ensures laid { (p : Program) (ls : List Lemma) (g : Graph) → Judging p ls g case.now
        → (Member (k % 64) passed → None ≡ found_of (findings_at p ls g k)) → Laid (findings_at p ls g k) list.old i list.new result }
{
    if (passed >> (k % 64)) % 2 == 1 {
        i
    } else {
        lay_at(case, k, list, i)
    }
}

// All findings of the graph, as many as the list has room for; `scratch` is worked in. How many there are, whether or not the list has room for all.
// The walk is `verdict::first_finding`'s, which stops where this one goes on: one for both would take a closure that carries the list and its place.
pub fn lay(case: &Case<'_>, list: &mut [u32], scratch: &mut [u64]) -> usize
    requires { table_words ≤ length scratch.old }
    ensures { (p : Program) (ls : List Lemma) (g : Graph) → Judging p ls g case.now → Laid (findings p ls g) list.old 0 list.new result }
{
    let mut passed = 0;
    let mut at = 0;
    for k in 0..case.nodes {
        if k % 64 == 0 {
            passed = verdict::clean(case, k, scratch);
        }
        at = lay_in(case, k, passed, list, at);
    }
    at
}
