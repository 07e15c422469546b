// A show surveyed: read, its lemmas weighed, its graph explored. Whatever judges a show begins with this.
#![tactic(auto)]

ghost use Rattle.std.specs.Prelude.{◌≤◌, length};
ghost use Rattle.records.specs.Records.{graph_words};
ghost use Rattle.ready.specs.Ready.{scratch_words};
ghost use Rattle.survey.specs.Ready.{SurveyOf};

use gather::Entry;
use lemmas::Loaded;
use programs::Image;
use words::Refusal;

// What reading, weighing and exploring come to before anything is judged: the graph list holds a graph of these counts.
#[derive(Clone, Copy)]
pub struct Surveyed {
    pub image: Image,
    // How many lemmas are accepted.
    pub count: usize,
    // What each action keeps.
    pub kept: [u32; 16],
    pub nodes: usize,
    pub edges: usize,
}

// A show read, its lemmas weighed and its graph explored, into the first 9,728 words of a list that is long enough; or the refusal that is due.
// The entries of the accepted lemmas are put into a list, and `scratch` is worked in.
pub fn survey(
    words: &[u32],
    lemmas: &[u32],
    graph: &mut [u32],
    entries: &mut [Entry],
    scratch: &mut [u64],
) -> Result<Surveyed, Refusal>
    requires { (graph_words ≤ length graph.old) × (512 ≤ length entries.old) × (scratch_words ≤ length scratch.old) }
    ensures { SurveyOf words.now lemmas.now graph.old graph.new entries.new result }
{
    let image = programs::load(words)?;
    let loaded = Loaded {
        words,
        image: &image,
    };
    let listed = lemmas::list(&loaded, lemmas, scratch)?;
    let count = tables::tabulate(&loaded, lemmas, &scratch[..listed], entries)?;
    let kept = frame::masks(image);
    let (nodes, edges) = graph::explore(
        &entries[..count],
        &kept,
        image.actions,
        graph,
        scratch,
    ).ok_or(Refusal::Nodes)?;
    Ok(Surveyed {
        image,
        count,
        kept,
        nodes,
        edges,
    })
}
