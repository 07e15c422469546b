// What is judged.

ghost use Rattle.std.specs.Prelude.{◌≡◌, ◌<◌, ◌≤◌, length, take, get_or};
ghost use Rattle.words.specs.Words.{payload};
ghost use Rattle.words.specs.Limits.{most_forbidden};
ghost use Rattle.records.specs.Records.{most_nodes, record_place};

use gather::Entry;
use programs::Image;
use records::Records;
use words::Literals;

// The graph of a program, by what the accepted lemmas show.
#[derive(Clone, Copy)]
pub struct Case<'a> {
    pub image: &'a Image,
    // For each action the places of the range ends that it has to be shown to keep to.
    pub asked: [u64; 16],
    // Of the accepted lemmas.
    pub entries: &'a [Entry],
    // The masks of what each action keeps.
    pub kept: &'a [u32],
    // Of the nodes, and how many nodes there are.
    pub records: Records<'a>,
    pub nodes: usize,
    pub ghost same_actions: { records.actions ≡ image.now.actions },
    pub ghost few_forbidden: { image.now.forbidden ≤ most_forbidden },
    pub ghost all_kept: { 16 ≤ length kept.now },
    pub ghost few_nodes: { nodes ≤ most_nodes },
}

impl Case<'_> {
    // The forbidden combinations.
    pub fn combinations(&self) -> &[Literals]
        ensures { result.now ≡ take self.now.image.now.forbidden self.now.image.now.literals }
    {
        &self.image.literals[..self.image.forbidden]
    }

    // The set of node k.
    pub fn set_at(&self, k: usize) -> u32
        requires { k < self.now.nodes }
        ensures { result ≡ payload (get_or self.now.records.list.now (record_place self.now.records.actions k) 0) }
    {
        self.records.word(k) % 268435456
    }
}
