// Lemmas: reading a list of them over a program that has been read.
#![tactic(auto)]

ghost use Rattle.std.specs.Prelude.{◌≡◌, ◌+◌, ◌<◌, ◌≤◌, length, take, drop, get_or, ◌||◌, eqb, ltb};
ghost use Rattle.words.specs.Words.{bits, LEMMA};
ghost use Rattle.grammar.specs.Reading.{times, many};
ghost use Rattle.grammar.specs.Programs.{Program};
ghost use Rattle.lemmas.specs.Lemmas.{START};
ghost use Rattle.reader.specs.Results.{next_of};
ghost use Rattle.programs.specs.Images.{image_of};
ghost use Rattle.words.specs.LiteralSets.{has};
ghost use Rattle.lemmas.specs.LemmaGrammar.{multiplier, lemma, as_lemma, read_lemmas};
ghost use Rattle.lemmas.specs.Sources.{the_program, Held, source_of, shape_of, slot_of, Slotted, goal_by, head_by, premises_by, literal_count};
ghost use Rattle.lemmas.specs.Props.{Held-prop};
ghost use Rattle.lemmas.specs.Sources.{row_count, one_if, lemma_read, BeginsAs, ListedAs};

use actions::Action;
use programs::{Image, Shape};
use rows::Row;
use words::{Kind, Literals, Refusal};

// What a lemma's source offers: its rows from place 0 on, and each variable's row afterwards.
#[derive(Clone, Copy)]
pub struct Source {
    pub count: usize,
    pub rows: [Row; 8],
    pub new: [Row; 8],
}

// A program's words, and the image that they were read into.
#[derive(Clone, Copy)]
pub struct Loaded<'a> {
    pub words: &'a [u32],
    pub image: &'a Image,
    pub ghost held: { Held words.now image.now } by { Held-prop },
}

// The first eight rows; no source has more.
fn eight(rows: [Row; 14]) -> [Row; 8]
    ensures { result ≡ take 8 rows }
{
    let mut out = [Row::ZERO; 8];
    out.copy_from_slice(&rows[..8]);
    out
}

impl Loaded<'_> {
    // The source of this number: an action, or 255 for the start. Another one offers nothing.
    pub fn source(&self, number: usize) -> Source
        ensures { result ≡ source_of (the_program self.now.words.now) number }
    {
        let image = self.image;
        if number == 255 {
            let rows = eight(image.start);
            let new = actions::KEEP;
            return Source {
                count: image.starts,
                rows,
                new,
            };
        }
        if image.actions <= number {
            let rows = [Row::ZERO; 8];
            let new = actions::KEEP;
            return Source {
                count: 0,
                rows,
                new,
            };
        }
        let at = image.action_at[number];
        let read = actions::read_action(self.words, at, image.vars, true);
        let (
            Action {
                guards: count,
                guard,
                rows: new,
                ..
            },
            _,
        ) = read.unwrap();
        let rows = eight(guard);
        Source { count, rows, new }
    }

    // Every source once.
    pub fn sources(&self) -> [Source; 18]
        ensures { Slotted (source_of (the_program self.now.words.now)) result }
    {
        let mut t = [self.source(254); 18];
        t[16] = self.source(255);
        for a in 0..16 {
            t[a] = self.source(a);
        }
        t
    }
}

// The place of a source in a table of them: an action's number, 16 for the start, 17 for any other.
pub fn slot(number: usize) -> usize
    ensures { (result ≡ slot_of number) × (result < 18) }
{
    if number < 16 {
        number
    } else if number == 255 {
        16
    } else {
        17
    }
}

// What the reading of a lemma asks of each source: how many rows it offers, and which variables it sets. No word is read for it.
fn shapes(image: &Image) -> [Shape; 18]
    ensures { (p : Program) → image.now ≡ image_of p → length p.actions ≤ 16 → Slotted (shape_of p) result }
{
    let set = [false; 8];
    let mut t = [Shape { count: 0, set }; 18];
    t[..16].copy_from_slice(&image.shapes);
    let count = image.starts;
    t[16] = Shape { count, set };
    t
}

// May a lemma have this goal and index, in a program of so many predicates, from a source that sets these variables?
fn goal_allowed(preds: usize, set: [bool; 8], goal: usize, index: usize) -> bool
    ensures { result ≡ goal_by preds set goal index }
{
    match goal {
        0 => index == 0,
        1 | 2 => index < preds,
        3 | 4 => set.get(index).copied().unwrap_or(false),
        _ => false,
    }
}

// Is this the start, or one of so many actions?
fn source_allowed(source: usize, actions: usize) -> bool
    ensures { result ≡ (eqb source START || ltb source actions) }
{
    source == 255 || source < actions
}

// May a LEMMA word say this, in a program of so many actions and predicates, where its source sets these variables?
fn head_allowed(w: u32, actions: usize, preds: usize, set: [bool; 8]) -> bool
    ensures { result ≡ head_by actions preds set w }
{
    w / 256 % 256 == 0
        && source_allowed(words::source(w), actions)
        && goal_allowed(preds, set, words::goal(w), words::index(w))
}

// May these be the premises of a lemma of this source?
fn premises_allowed(set: u32, preds: usize, source: usize) -> bool
    requires { preds ≤ 14 }
    ensures { result ≡ premises_by preds source set }
{
    programs::literals_allowed(set, preds) && (source != 255 || set == 0)
}

// 1 if the literal at a place is in the set, else 0.
fn bit(set: u32, place: usize) -> usize
    requires { place < 32 }
    ensures { (result ≡ one_if (has place set)) × (result ≤ 1) }
{
    usize::from((set >> place) % 2 == 1)
}

// How many literals of n predicates are in the set.
fn count_literals(set: u32, n: usize) -> usize
    requires { n ≤ 14 }
    ensures { (result ≡ literal_count 0 n set) × (result ≤ 28) }
{
    let mut total = 0;
    for i in 0..n {
        total += bit(set, i) + bit(set, 14 + i);
    }
    total
}

// How many rows a lemma has, and so how many MULT words.
fn count_rows(goal: usize, preds: usize, set: u32, count: usize) -> usize
    requires { (preds ≤ 14) × (count ≤ 14) }
    ensures { result ≡ row_count goal preds set count }
{
    usize::from(goal != 0) + count_literals(set, preds) + count
}

// Where the n MULT words from an index on end.
fn read_mults(lemmas: &[u32], at: usize, n: usize) -> Result<usize, Refusal>
    requires { at ≤ length lemmas.now }
    ensures { result ≡ next_of (times n multiplier (drop at lemmas.now) at) }
{
    for k in 0..n {
        let i = at + k;
        let w = reader::word_at(lemmas, i);
        reader::read_word(lemmas, i, i, Kind::MULT, true, true, w % 268435456 <= 65535)?;
    }
    Ok(at + n)
}

// A lemma without its multipliers. Its first MULT word is the third of its words.
#[derive(Clone, Copy)]
pub struct LemmaRead {
    pub source: usize,
    pub goal: usize,
    pub index: usize,
    pub premises: Literals,
}

// The lemma at an index, by the shape of its source, and where reading goes on. `room` says whether the list may have one more.
fn read_lemma(
    loaded: &Loaded<'_>,
    shape: Shape,
    lemmas: &[u32],
    at: usize,
    room: bool,
) -> Result<(LemmaRead, usize), Refusal>
    requires { (at ≤ length lemmas.now) × (shape ≡ shape_of (the_program loaded.now.words.now) (bits 27 20 (get_or lemmas.now at 0))) }
    ensures { result ≡ lemma_read (lemma (the_program loaded.now.words.now) room (drop at lemmas.now) at) }
{
    let image = loaded.image;
    let w = reader::word_at(lemmas, at);
    let source = words::source(w);
    let goal = words::goal(w);
    let allowed = head_allowed(w, image.actions, image.preds, shape.set);
    reader::read_word(lemmas, at, at, Kind::LEMMA, true, room, allowed)?;
    let s = reader::word_at(lemmas, at + 1);
    let literals = s % 268435456;
    let fine = premises_allowed(literals, image.preds, source);
    reader::read_word(lemmas, at + 1, at + 1, Kind::SETS, true, true, fine)?;
    let n = count_rows(goal, image.preds, literals, shape.count);
    let next = read_mults(lemmas, at + 2, n)?;
    let lemma = LemmaRead {
        source,
        goal,
        index: words::index(w),
        premises: Literals::of(s),
    };
    Ok((lemma, next))
}

// How many lemmas are at the front of the list, 0 to 512, and where reading goes on. Where each begins is put into `begins`.
fn read_lemmas(
    loaded: &Loaded<'_>,
    lemmas: &[u32],
    begins: &mut [u64],
) -> Result<(usize, usize), Refusal>
    requires { 512 ≤ length begins.old }
    ensures { BeginsAs begins.old (many LEMMA (lemma (the_program loaded.now.words.now)) 512 (drop 0 lemmas.now) 0) result begins.new }
{
    let t = shapes(loaded.image);
    let mut i = 0;
    let mut k = 0;
    // A `while`: the kind of the next word ends it, and one lemma too many is refused within it.
    while reader::begins(lemmas, i, Kind::LEMMA) {
        let shape = t[slot(words::source(reader::word_at(lemmas, i)))];
        let (_, next) = read_lemma(loaded, shape, lemmas, i, k < 512)?;
        begins[k] = i as u64;
        i = next;
        k += 1;
    }
    Ok((k, i))
}

// A refusal in a lemma list: 6 for one lemma too many, 5 for any other cause.
fn as_lemma(why: Refusal) -> Refusal
    ensures { result ≡ as_lemma why }
{
    match why {
        Refusal::Limit(at) => Refusal::Lemmas(at),
        _ => Refusal::Lemma(why.value()),
    }
}

// How many lemmas a list has. Where each begins is put into `begins`.
pub fn list(loaded: &Loaded<'_>, lemmas: &[u32], begins: &mut [u64]) -> Result<usize, Refusal>
    requires { 512 ≤ length begins.old }
    ensures { ListedAs begins.old (read_lemmas (the_program loaded.now.words.now) lemmas.now) result begins.new }
{
    let (count, end) = read_lemmas(loaded, lemmas, begins).map_err(as_lemma)?;
    if end < lemmas.len() {
        return Err(as_lemma(Refusal::Word(end)));
    }
    Ok(count)
}
