// Judge.
#![tactic(auto)]

ghost use Rattle.std.specs.Prelude.{◌≡◌, List, ℕ, ◌≤◌, length};
ghost use Rattle.grammar.specs.Programs.{Program};
ghost use Rattle.programs.specs.Calls.{read};
ghost use Rattle.lemmas.specs.Lemmas.{Lemma};
ghost use Rattle.search.specs.Search.{Graph, links};
ghost use Rattle.records.specs.Records.{graph_words};
ghost use Rattle.ready.specs.Ready.{scratch_words};
ghost use Rattle.survey.specs.Ready.{Ready, Stands};
ghost use Rattle.verdict.specs.Verdicts.{findings, path_words, path_list};
ghost use Rattle.verdict.specs.Working.{Traced, Judging};
ghost use Rattle.judge.specs.Calls.{verdict, path_to, judge};
ghost use Rattle.judge.specs.Worth.{Demand2Of, SafeOf};
ghost use Rattle.judge.specs.Shortest.{ShortestOf};
ghost use Rattle.judge.specs.declared.Judged.TheVariants.{Safe};

use gather::Entry;
use records::Records;
use survey::Surveyed;
use verdict::{Case, Finding};
use words::Refusal;

// What Judge answers: a verdict with the counts of nodes and edges.
#[derive(Clone, Copy)]
pub enum Judged {
    Safe(usize, usize),
    // Node and combination.
    MayForbid(usize, usize, usize, usize),
    // Node, action, variable, and whether it is the high end.
    MayRunOff(usize, usize, usize, bool, usize, usize),
}

// What is judged of a survey, whose accepted lemmas have these entries.
pub fn case_of<'a>(s: &'a Surveyed, entries: &'a [Entry], graph: &'a [u32]) -> Case<'a>
    requires { Stands entries.now s.now graph.now × (graph_words ≤ length graph.now) }
    ensures { (p : Program) (ls : List Lemma) (g : Graph) → Ready p ls g entries.now s.now graph.now → Judging p ls g result }
{
    let records = Records {
        list: graph,
        actions: s.image.actions,
    };
    Case {
        image: &s.image,
        asked: verdict::asked_ends(&s.image),
        entries,
        kept: &s.kept,
        records,
        nodes: s.nodes,
    }
}

// The verdict on a graph with these edges, and its path.
fn judge_graph(case: &Case<'_>, edges: usize, path: &mut [u32], scratch: &mut [u64]) -> Judged
    requires { (path_words ≤ length path.old) × (scratch_words ≤ length scratch.old) }
    ensures { (p : Program) (ls : List Lemma) (g : Graph) → Judging p ls g case.now → Traced (length p.actions) g → edges ≡ links g
        → (result ≡ verdict g (findings p ls g)) × (path.new ≡ path_list (path_to g (findings p ls g)) path.old) }
{
    let nodes = case.nodes;
    let found = verdict::first_finding(case, scratch);
    match found {
        None => {
            verdict::clear_path(path);
            Judged::Safe(nodes, edges)
        }
        Some(Finding::Forbid(k, b)) => {
            verdict::write_path(case.records, k, path);
            Judged::MayForbid(k, b, nodes, edges)
        }
        Some(Finding::RunOff(k, j, v, high)) => {
            verdict::write_path(case.records, k, path);
            Judged::MayRunOff(k, j, v, high, nodes, edges)
        }
    }
}

// Judge: the graph into the first 9,728 words of one list, the verdict, and its path into the first 512 words of the other; or the refusal that is due.
pub fn judge(
    words: &[u32],
    lemmas: &[u32],
    graph: &mut [u32],
    path: &mut [u32],
) -> Result<Judged, Refusal>
    ensures answer { result ≡ (judge words.now lemmas.now graph.old path.old).answer }
    ensures graph { graph.new ≡ (judge words.now lemmas.now graph.old path.old).graph }
    ensures path { path.new ≡ (judge words.now lemmas.now graph.old path.old).path }
    ensures demand2 { Demand2Of words.now lemmas.now result
        graph.old graph.new path.old path.new }
    ensures demand3 { (nodes edges : ℕ) → result ≡ Ok (Safe nodes edges) → SafeOf (read words.now) }
    ensures shortest { ShortestOf words.now lemmas.now result graph.new path.new }
{
    if graph.len() < records::ROOM {
        return Err(Refusal::Short(0));
    }
    if path.len() < verdict::PATH_ROOM {
        return Err(Refusal::Short(1));
    }
    let none = Entry {
        premises: 0,
        key: 0,
    };
    let mut entries = [none; 512];
    let mut scratch = [0; ready::SCRATCH];
    let surveyed = survey::survey(words, lemmas, graph, &mut entries, &mut scratch)?;
    let case = case_of(&surveyed, &entries[..surveyed.count], graph);
    Ok(judge_graph(&case, surveyed.edges, path, &mut scratch))
}
