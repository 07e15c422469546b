// The reading view over a finished graph list.
#![tactic(auto)]

ghost use Rattle.std.specs.Prelude.{◌≡◌};
ghost use Rattle.view.specs.Views.{edge_of, viewed};

use words::{Kind, Refusal};

// A graph list, and how many nodes and actions its records are of.
#[derive(Clone, Copy)]
pub struct View<'a> {
    graph: &'a [u32],
    nodes: usize,
    actions: usize,
}

// What the word w, which stands at a place, says of a successor: its number, or that there is none.
fn edge_of(w: u32, at: usize) -> Result<Option<usize>, Refusal>
    ensures { result ≡ edge_of w at }
{
    if Kind::of(w) != Kind::EDGE {
        return Err(Refusal::Word(at));
    }
    let to = words::count(w);
    if to == words::NO_NODE as usize {
        return Ok(None);
    }
    Ok(Some(to))
}

// The successor for a node and an action, read from the list.
#[tactic(auto, using(crate::proofs::Reading::size_is), unfolding(crate::specs::Views::viewed))]
pub fn successor_at(
    graph: &[u32],
    nodes: usize,
    actions: usize,
    node: usize,
    action: usize,
) -> Result<Option<usize>, Refusal>
    ensures { result ≡ viewed graph.now nodes actions node action }
{
    if words::NODES < nodes {
        return Err(Refusal::Limit(0));
    }
    if words::ACTIONS < actions {
        return Err(Refusal::Limit(0));
    }
    // A record is as long as the place where the second one begins.
    let size = records::record_place(actions, 1);
    if graph.len() < nodes * size {
        return Err(Refusal::Short(0));
    }
    if nodes <= node {
        return Err(Refusal::Absent(node));
    }
    if actions <= action {
        return Err(Refusal::Absent(action));
    }
    let at = records::edge_place(actions, node, action);
    edge_of(graph[at], at)
}

impl<'a> View<'a> {
    // The view of a list and two counts, whatever they are.
    pub fn new(graph: &'a [u32], nodes: usize, actions: usize) -> View<'a>
        ensures { (result.graph ≡ graph.entry) × (result.nodes ≡ nodes) × (result.actions ≡ actions) }
    {
        View {
            graph,
            nodes,
            actions,
        }
    }

    // The successor for a node and an action.
    pub fn successor(self, node: usize, action: usize) -> Result<Option<usize>, Refusal>
        ensures { result ≡ viewed self.entry.graph.now self.entry.nodes self.entry.actions node action }
    {
        successor_at(self.graph, self.nodes, self.actions, node, action)
    }
}

// The same of a list and two counts: a view is made and asked.
pub fn successor_of(
    graph: &[u32],
    nodes: usize,
    actions: usize,
    node: usize,
    action: usize,
) -> Result<Option<usize>, Refusal>
    ensures { result ≡ viewed graph.now nodes actions node action }
{
    View::new(graph, nodes, actions).successor(node, action)
}
