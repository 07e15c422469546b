// The abstract state graph of the accepted lemmas, written into a lent list.
#![tactic(auto)]

ghost use Rattle.std.specs.Prelude.{Option, ◌≡◌, ℕ, ◌+◌, ◌*◌, ◌^◌, ◌<◌, ◌≤◌, length, get_or};
ghost use Rattle.words.specs.Words.{word, payload, SETS};
ghost use Rattle.search.specs.Search.{Answer, To, From, answered, turns, explored};
ghost use Rattle.records.specs.Records.{most_nodes, graph_words, record_place, graph_list};
ghost use Rattle.records.specs.Steps.{explored_of, hint_count, AtNode, Turned, Filled};
ghost use Rattle.ready.specs.Ready.{scratch_words, Fit};
ghost use Rattle.graph.specs.Graph.{answer_of, Gives, next_of, graph_of, Usable, FewNodes, taken_by};

use gather::Entry;
use records::Records;
use words::{Kind, Literals};

// The word of a node with these literals.
fn node_word(set: u32) -> u32
    requires { set < 2 ^ 28 }
    ensures { result ≡ word SETS set }
{
    Kind::SETS.word(set)
}

// The turn of action j at node k, given what comes after it.
fn enter_next(
    graph: &mut [u32],
    hints: &mut [u16],
    nodes: usize,
    edges: usize,
    actions: usize,
    k: usize,
    j: usize,
    next: Option<u32>,
) -> Option<(usize, usize)>
    requires fit { Fit next }
    requires at { AtNode graph.old nodes edges actions k (k * actions + j) × (j < actions) × (hint_count ≤ length hints.old) }
    ensures { Turned (λ h. answered most_nodes h (From k j) (answer_of next)) graph.old actions nodes edges (k * actions + j) result
        graph.new (k * actions + j + 1) }
{
    match next {
        Some(set) => {
            let w = node_word(set);
            records::enter(graph, hints, nodes, edges, actions, k, j, w)
        }
        None => records::enter_none(graph, nodes, edges, actions, k, j),
    }
}

// The turns of node k's actions in order, given what comes after each.
fn turn<F: Fn(usize) -> Option<u32>>(
    graph: &mut [u32],
    hints: &mut [u16],
    nodes: usize,
    edges: usize,
    actions: usize,
    k: usize,
    next: F,
) -> Option<(usize, usize)>
    requires at { AtNode graph.old nodes edges actions k (k * actions) × (hint_count ≤ length hints.old) }
    requires callable { (j : ℕ) → j < actions → F.pre next j }
    requires fit { (j : ℕ) (s : Option ℕ) → j < actions → F.post next j s → Fit s }
    ensures { (f : ℕ → ℕ → Answer) → Gives (F.post next) actions (get_or graph.old (record_place actions k) 0) f
        → Turned (λ h. turns f most_nodes h k actions) graph.old actions nodes edges (k * actions) result graph.new (k * actions + actions) }
{
    let mut counts = (nodes, edges);
    for j in 0..actions {
        counts = enter_next(graph, hints, counts.0, counts.1, actions, k, j, next(j))?;
    }
    Some(counts)
}

// The turns of node k's actions in order: by the block if it has the node's set at the node's place, and else by one pass over the entries, which serves
// them all.
fn turn_in(
    entries: &[Entry],
    kept: &[u32],
    words: &[u32; 64],
    scratch: &[u64],
    gone: [u64; 16],
    graph: &mut [u32],
    hints: &mut [u16],
    nodes: usize,
    edges: usize,
    actions: usize,
    k: usize,
) -> Option<(usize, usize)>
    requires at { AtNode graph.old nodes edges actions k (k * actions) × (hint_count ≤ length hints.old) }
    requires block { (16 ≤ length kept.now) × (scratch_words ≤ length scratch.now) × Usable kept.now words.now entries.now scratch.now gone }
    ensures { Turned (λ h. turns (next_of entries.now kept.now) most_nodes h k actions) graph.old actions nodes edges (k * actions) result graph.new
        (k * actions + actions) }
{
    let i = k % 64;
    let held = words[i];
    let records = Records {
        list: graph,
        actions,
    };
    let set = Literals::of(records.word(k)).0;
    if held == set {
        let ready = |j| ready::successor_in(scratch, gone, j, i);
        turn(graph, hints, nodes, edges, actions, k, ready)
    } else {
        let known = gather::gather_all(entries, set, kept);
        let gathered = |j: usize| gather::successor_of(known[j]);
        turn(graph, hints, nodes, edges, actions, k, gathered)
    }
}

// Is a block due? The one there is does not have node k's set, and enough nodes wait. Nothing rests on the answer but time.
fn is_due(words: &[u32; 64], records: Records<'_>, nodes: usize, k: usize) -> bool
    requires { (nodes ≤ most_nodes) × (k < nodes) }
{
    words[k % 64] != Literals::of(records.word(k)).0 && block::LEAST <= nodes - k
}

// The sets of the nodes from k on, each at its place in a block. Whoever goes by the block compares its sets first, so nothing is promised of them.
fn load(mut words: [u32; 64], records: Records<'_>, nodes: usize, k: usize) -> [u32; 64]
    requires { (nodes ≤ most_nodes) × (k < nodes) }
{
    for q in k..nodes.min(k + 64) {
        words[q % 64] = Literals::of(records.word(q)).0;
    }
    words
}

// The turns of all nodes, from node 0's word on. Where there are too many nodes the list is left as it then is. No node has the sets that the block
// has at first.
fn explore_from(
    entries: &[Entry],
    kept: &[u32],
    graph: &mut [u32],
    hints: &mut [u16],
    scratch: &mut [u64],
    actions: usize,
    start: u32,
) -> Option<(usize, usize)>
    requires { (16 ≤ length kept.now) × (graph_words ≤ length graph.old) × (hint_count ≤ length hints.old) × (scratch_words ≤ length scratch.old)
        × (actions ≤ 16) }
    ensures { Filled actions (explored (next_of entries.now kept.now) actions most_nodes (To start)) result graph.old graph.new }
{
    records::begin(graph, start);
    let mut words = [u32::MAX; 64];
    let mut gone = [0; 16];
    let mut nodes = 1;
    let mut edges = 0;
    let mut k = 0;
    // no `for`: the nodes grow in it
    while k < nodes {
        let records = Records {
            list: graph,
            actions,
        };
        if is_due(&words, records, nodes, k) {
            words = load(words, records, nodes, k);
            gone = ready::ready_block(entries, kept, &words, scratch);
        }
        (nodes, edges) = turn_in(
            entries, kept, &words, scratch, gone, graph, hints, nodes, edges, actions, k,
        )?;
        k += 1;
    }
    Some((nodes, edges))
}

// How many words the records take that a search leaves: none where there are too many nodes.
fn taken(explored: Option<(usize, usize)>, actions: usize) -> usize
    requires { (actions ≤ 16) × FewNodes explored }
    ensures { (result ≡ taken_by actions explored) × (result ≤ graph_words) }
{
    match explored {
        Some((nodes, _)) => nodes * (records::HEADER + actions),
        None => 0,
    }
}

// The graph of the entries and the masks of what each action keeps, written into the list's first 9,728 words; `scratch` is worked in.
pub fn explore(
    entries: &[Entry],
    kept: &[u32],
    actions: usize,
    graph: &mut [u32],
    scratch: &mut [u64],
) -> Option<(usize, usize)>
    requires { (16 ≤ length kept.now) × (graph_words ≤ length graph.old) × (scratch_words ≤ length scratch.old) × (actions ≤ 16) }
    ensures { (result ≡ explored_of (graph_of entries.now kept.now actions))
        × (graph.new ≡ graph_list actions (graph_of entries.now kept.now actions) graph.old) }
{
    let known = gather::gather(entries, words::START, Literals::EMPTY.0);
    let Some(set) = gather::successor_of(known) else {
        records::clear(graph, records::ROOM);
        return Some((0, 0));
    };
    let w = node_word(set);
    let mut hints = [0; 4096];
    let r = explore_from(entries, kept, graph, &mut hints, scratch, actions, w);
    let used = taken(r, actions);
    records::clear(&mut graph[used..], records::ROOM - used);
    r
}
