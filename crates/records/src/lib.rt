// The records of a graph in a lent list of words.
#![tactic(auto)]

ghost use Rattle.std.specs.Prelude.{◌≡◌, ◌++◌, ◌+◌, ◌*◌, ◌<◌, ◌≤◌, length, drop, get_or, replicate};
ghost use Rattle.search.specs.Search.{To, Root, From, seek, answered};
ghost use Rattle.search.specs.Search.{None as Nowhere};
ghost use Rattle.records.specs.Records.{edge_word, origin_word, distance_word, most_nodes, header, graph_words};
ghost use Rattle.records.specs.Records.{stride, distance_offset, record_place, edge_place};
ghost use Rattle.records.specs.Steps.{headed, origin_at, column, hint_count, Sought, AtNode, Turned};

use words::Kind;

// How many words of a record come before its edges: the node's word, its origin and its distance.
pub const HEADER: usize = 3;

// Where in a record the origin stands.
pub const ORIGIN_OFFSET: usize = 1;

// Where in a record the distance stands.
const DISTANCE_OFFSET: usize = 2;

// How many words the records have room in.
pub const ROOM: usize = words::NODES * (HEADER + words::ACTIONS);

// Where the record of node k begins.
pub fn record_place(actions: usize, k: usize) -> usize
    requires { (actions ≤ 16) × (k < most_nodes) }
    ensures { (result ≡ record_place actions k) × (result + stride actions ≤ graph_words) }
{
    k * (HEADER + actions)
}

// Where the edge of node k and action j stands.
pub fn edge_place(actions: usize, k: usize, j: usize) -> usize
    requires { (actions ≤ 16) × (k < most_nodes) × (j < actions) }
    ensures { (result ≡ edge_place actions k j) × (result < graph_words) }
{
    record_place(actions, k) + (HEADER + j)
}

// The word of an edge to node m.
fn edge_word(m: usize) -> u32
    requires { m < most_nodes }
    ensures { result ≡ edge_word (To m) }
{
    Kind::EDGE.word(m as u32)
}

// The word of a node's origin: node k, by action j.
fn origin_word(k: usize, j: usize) -> u32
    requires { (k < most_nodes) × (j < 16) }
    ensures { result ≡ origin_word (From k j) }
{
    Kind::ORIGIN.word(k as u32 * 16 + j as u32)
}

// The word of the origin of node 0.
pub fn root_word() -> u32
    ensures { result ≡ origin_word Root }
{
    Kind::ORIGIN.word(words::NO_PARENT)
}

// The first n words become zero.
pub fn clear(list: &mut [u32], n: usize)
    requires { n ≤ length list.old }
    ensures { list.new ≡ replicate n 0 ++ drop n list.old }
{
    list[..n].fill(0);
}

// Where the table of hints speaks of the word w. Any factor would do; with this one few sets of literals share a place.
fn hint_place(w: u32) -> usize
    ensures { result < hint_count }
{
    (u64::from(w) * 3116128017 / 1048576 % 4096) as usize
}

// The records of a graph in a list, read.
#[derive(Clone, Copy)]
pub struct Records<'a> {
    pub list: &'a [u32],
    // How many edges each has.
    pub actions: usize,
    pub ghost whole: { graph_words ≤ length list.now },
    pub ghost few: { actions ≤ 16 },
}

impl Records<'_> {
    // The word of node k.
    pub fn word(self, k: usize) -> u32
        requires { k < most_nodes }
        ensures { result ≡ get_or self.entry.list.now (record_place self.entry.actions k) 0 }
    {
        self.list[record_place(self.actions, k)]
    }

    // The origin word of node k.
    pub fn origin(self, k: usize) -> u32
        requires { k < most_nodes }
        ensures { result ≡ origin_at self.entry.list.now self.entry.actions k }
    {
        self.list[record_place(self.actions, k) + ORIGIN_OFFSET]
    }

    // The distance of node k, which is its word's payload: the kind is 0.
    fn distance(self, k: usize) -> u32
        requires { (k < most_nodes) × (get_or self.list.now (record_place self.actions k + distance_offset) 0 ≤ k) }
        ensures { (result ≡ get_or self.entry.list.now (record_place self.entry.actions k + distance_offset) 0) × (result ≤ k) }
    {
        self.list[record_place(self.actions, k) + DISTANCE_OFFSET]
    }

    // Which of n nodes has the word w: the first one tried is the hint's, which may be any, then all from the last one down. Where all words differ,
    // the one that is found is the first.
    fn find(self, hints: &[u16], n: usize, w: u32) -> Option<usize>
        requires { (hint_count ≤ length hints.now) × (0 < n) × (n ≤ most_nodes) }
        ensures { Sought (column self.entry.list.now self.entry.actions 0 n) w n result }
    {
        let step = HEADER + self.actions;
        let hint = usize::from(hints[hint_place(w)]);
        let mut i = if hint < n { hint } else { 0 };
        let mut left = n;
        // The scope document names this form: a loop that breaks with the index found.
        loop {
            if self.list[i * step] == w {
                break Some(i);
            }
            if left == 0 {
                break None;
            }
            left -= 1;
            i = left;
        }
    }
}

// The record of a node, as yet without edges.
fn store(graph: &mut [u32], at: usize, w: u32, origin: u32, distance: u32)
    requires { (at + header ≤ length graph.old) × (distance < most_nodes) }
    ensures { graph.new ≡ headed graph.old at w origin (distance_word distance) }
{
    graph[at] = w;
    graph[at + ORIGIN_OFFSET] = origin;
    graph[at + DISTANCE_OFFSET] = Kind::DISTANCE.word(distance);
}

// Node 0, as yet without edges.
pub fn begin(graph: &mut [u32], w: u32)
    requires { header ≤ length graph.old }
    ensures { graph.new ≡ headed graph.old 0 w (origin_word Root) (distance_word 0) }
{
    store(graph, 0, w, root_word(), 0);
}

// Action j has no successor at node k.
pub fn enter_none(
    graph: &mut [u32],
    nodes: usize,
    edges: usize,
    actions: usize,
    k: usize,
    j: usize,
) -> Option<(usize, usize)>
    requires { AtNode graph.old nodes edges actions k (k * actions + j) × (j < actions) }
    ensures { Turned (λ h. answered most_nodes h (From k j) Nowhere) graph.old actions nodes edges (k * actions + j) result graph.new
        (k * actions + j + 1) }
{
    let place = edge_place(actions, k, j);
    graph[place] = Kind::EDGE.word(words::NO_NODE);
    Some((nodes, edges))
}

// Action j leads from node k to the word w: its edge, and the record of w if it is new.
pub fn enter(
    graph: &mut [u32],
    hints: &mut [u16],
    nodes: usize,
    edges: usize,
    actions: usize,
    k: usize,
    j: usize,
    w: u32,
) -> Option<(usize, usize)>
    requires { AtNode graph.old nodes edges actions k (k * actions + j) × (j < actions) × (hint_count ≤ length hints.old) }
    ensures turn { Turned (λ h. answered most_nodes h (From k j) (To w)) graph.old actions nodes edges (k * actions + j) result graph.new
        (k * actions + j + 1) }
    ensures hints { hint_count ≤ length hints.new }
{
    let records = Records {
        list: graph,
        actions,
    };
    let found = records.find(hints, nodes, w);
    hints[hint_place(w)] = found.unwrap_or(nodes) as u16;
    let place = edge_place(actions, k, j);
    match found {
        Some(at) => {
            graph[place] = edge_word(at);
            Some((nodes, edges + 1))
        }
        None if nodes == words::NODES => None,
        None => {
            let new = record_place(actions, nodes);
            let parent = records.distance(k);
            store(graph, new, w, origin_word(k, j), parent + 1);
            graph[place] = edge_word(nodes);
            Some((nodes + 1, edges + 1))
        }
    }
}
