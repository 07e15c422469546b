// Findings: all findings of one check.
#![tactic(auto)]

ghost use Rattle.std.specs.Prelude.{◌≡◌, List, ℕ, ◌≤◌, length};
ghost use Rattle.grammar.specs.Programs.{Program};
ghost use Rattle.programs.specs.Calls.{read};
ghost use Rattle.lemmas.specs.Lemmas.{Lemma};
ghost use Rattle.search.specs.Search.{Graph};
ghost use Rattle.ready.specs.Ready.{scratch_words};
ghost use Rattle.verdict.specs.Verdicts.{findings, path_words};
ghost use Rattle.verdict.specs.Working.{Judging};
ghost use Rattle.judge.specs.Calls.{judge};
ghost use Rattle.judge.specs.Worth.{SafeOf};
ghost use Rattle.findings.specs.Calls.{list_all, listing};
ghost use Rattle.findings.specs.Worth.{SheetOf, Agrees};

use gather::Entry;
use verdict::Case;
use words::Refusal;

// All findings of a graph in a list, zeros behind them; or how many words they need, where it is too short.
fn list_all(case: &Case<'_>, list: &mut [u32], scratch: &mut [u64]) -> Result<usize, Refusal>
    requires { scratch_words ≤ length scratch.old }
    ensures { (p : Program) (ls : List Lemma) (g : Graph) → Judging p ls g case.now → (gl : List ℕ)
        → (result ≡ (list_all (findings p ls g) gl list.old).answer) × (list.new ≡ (list_all (findings p ls g) gl list.old).list) }
{
    let needed = sheet::lay(case, &mut [], scratch);
    let room = list.len();
    if room < needed {
        return Err(Refusal::Findings(needed));
    }
    list.fill(0);
    if needed > 0 {
        sheet::lay(case, list, scratch);
    }
    Ok(needed)
}

// Findings: the graph into the first 9,728 words of one list, all findings into the other, and their number; or the refusal that is due.
pub fn findings(
    words: &[u32],
    lemmas: &[u32],
    graph: &mut [u32],
    list: &mut [u32],
) -> Result<usize, Refusal>
    ensures answer { result ≡ (listing words.now lemmas.now graph.old list.old).answer }
    ensures graph { graph.new ≡ (listing words.now lemmas.now graph.old list.old).graph }
    ensures list { list.new ≡ (listing words.now lemmas.now graph.old list.old).list }
    ensures sheet { SheetOf words.now lemmas.now result
        graph.old graph.new list.old list.new }
    ensures demand3 { result ≡ Ok 0 → SafeOf (read words.now) }
    ensures judge { (path : List ℕ) → path_words ≤ length path
        → Agrees (judge words.now lemmas.now graph.old path).answer result list.new
        × (graph.new ≡ (judge words.now lemmas.now graph.old path).graph) }
{
    if graph.len() < records::ROOM {
        return Err(Refusal::Short(0));
    }
    let none = Entry {
        premises: 0,
        key: 0,
    };
    let mut entries = [none; 512];
    let mut scratch = [0; ready::SCRATCH];
    let surveyed = survey::survey(words, lemmas, graph, &mut entries, &mut scratch)?;
    let case = judge::case_of(&surveyed, &entries[..surveyed.count], graph);
    list_all(&case, list, &mut scratch)
}
