// From the bytes of a show file to Judge's answer: the length rules, the byte order and the split at END, for any caller.
#![tactic(auto)]

ghost use Rattle.std.specs.Prelude.{◌≡◌, ℕ, ◌≤◌, length, Ok};
ghost use Rattle.judge.specs.declared.Judged.TheVariants.{Safe};
ghost use Rattle.show.specs.declared.Answered.{Answered};
ghost use Rattle.show.specs.Show.{logic_length, of_words, show, words_left, SafeShow};

use judge::Judged;
use words::{Kind, Refusal};

// How many bytes a show may have, and how many words their list needs.
pub const BYTES: usize = 65536;

pub const WORDS: usize = 16384;

// Why the bytes of a show are not judged.
#[derive(Clone, Copy)]
pub enum Unread {
    // The words' list has under 16,384 words.
    WordsShort,
    // More than 65,536 bytes.
    TooLong,
    // The number of bytes is no multiple of 4.
    OddBytes,
}

// How many words the logic and the lemmas have, and Judge's answer.
#[derive(Clone, Copy)]
pub struct Answered {
    pub logic: usize,
    pub lemmas: usize,
    pub judged: Result<Judged, Refusal>,
}

// How many words belong to the logic.
fn logic_length(words: &[u32]) -> usize
    ensures { (result ≡ logic_length words.now) × (result ≤ length words.now) }
{
    match words.iter().position(|w| Kind::of(*w) == Kind::END) {
        Some(i) => i + 1,
        None => words.len(),
    }
}

// Judge, of the logic and the lemmas in words.
fn judge_words(words: &[u32], graph: &mut [u32], path: &mut [u32]) -> Answered
    ensures answer { Ok result ≡ (of_words words.now graph.old path.old).answer }
    ensures graph { graph.new ≡ (of_words words.now graph.old path.old).graph }
    ensures path { path.new ≡ (of_words words.now graph.old path.old).path }
{
    let (logic, lemmas) = words.split_at(logic_length(words));
    Answered {
        logic: logic.len(),
        lemmas: lemmas.len(),
        judged: judge::judge(logic, lemmas, graph, path),
    }
}

// Judge, of a show file's bytes. The words are put at the front of `words`, the logic first and the lemmas behind it; only an answer of Judge writes there.
// The answers in this order: the words' list is too short, too long, odd bytes, then Judge's.
#[tactic(auto, unfolding(crate::specs::Show::of_bytes))]
pub fn show(
    bytes: &[u8],
    words: &mut [u32],
    graph: &mut [u32],
    path: &mut [u32],
) -> Result<Answered, Unread>
    ensures answer { result ≡ (show bytes.now words.old graph.old path.old).answer }
    ensures words { words.new ≡ words_left result bytes.now words.old }
    ensures graph { graph.new ≡ (show bytes.now words.old graph.old path.old).graph }
    ensures path { path.new ≡ (show bytes.now words.old graph.old path.old).path }
    ensures safe { (a : Answered) (nodes edges : ℕ) → result ≡ Ok a → a.judged ≡ Ok (Safe nodes edges) → SafeShow bytes.now }
{
    if words.len() < WORDS {
        return Err(Unread::WordsShort);
    }
    if bytes.len() > BYTES {
        return Err(Unread::TooLong);
    }
    if bytes.len() % 4 != 0 {
        return Err(Unread::OddBytes);
    }
    let n = bytes.len() / 4;
    little::to_words(bytes, &mut *words, n);
    Ok(judge_words(&words[..n], graph, path))
}
