// Accepting a lemma, and Ask.
#![tactic(auto)]

ghost use Rattle.std.specs.Prelude.{◌≡◌, ℕ, ◌<◌, ◌≤◌, get_or, IfSome};
ghost use Rattle.words.specs.Words.{bits};
ghost use Rattle.rows.specs.Rows.{exact};
ghost use Rattle.ask.specs.declared.Asked.TheVariants.{Accepted};
ghost use Rattle.rows.specs.Bounds.{SmallRange, SmallRanges, Read, no_row};
ghost use Rattle.programs.specs.Calls.{read};
ghost use Rattle.sums.specs.Fits.{Single, After};
ghost use Rattle.lemmas.specs.Lemmas.{largest_of};
ghost use Rattle.lemmas.specs.Sources.{the_program, source_of};
ghost use Rattle.ask.specs.Calls.{weighed, ask, TrueIn};
ghost use Rattle.ask.specs.Weighing.{the_lemma, IsLemma, end_row, goal_row, refuted, against};

use lemmas::{Loaded, Source};
use rows::{Range, Row};
use words::Refusal;

// The row that says that a variable is not below its low end, or not above its high end.
fn end_row(range: Range, low: bool, v: usize) -> Row
    requires { (v < 8) × SmallRange range }
    ensures { (result ≡ end_row range low v) × Read result }
{
    let mut coef = [0; 8];
    if low {
        coef[v] = 1;
        let constant = -range.low;
        return Row { coef, constant };
    }
    coef[v] = -1;
    let constant = range.high;
    Row { coef, constant }
}

// The row of a goal: a predicate's, or that of an end.
fn goal_row(ranges: [Range; 8], preds: [Row; 14], goal: usize, index: usize) -> Row
    requires { (goal ≤ 2 → index < 14) × (2 < goal → index < 8) × SmallRanges ranges × ((i : ℕ) → Read (get_or preds i no_row)) }
    ensures { (result ≡ goal_row ranges preds goal index) × Read result }
{
    if goal <= 2 {
        return preds[index];
    }
    let range = ranges[index];
    end_row(range, goal == 3, index)
}

// The negated goal; of goal 2 the predicate itself.
fn refuter(goal: usize, row: Row) -> Row
    requires { Read row }
    ensures { (result ≡ refuted goal row) × Single result }
{
    if goal == 2 { row } else { rows::negate(row) }
}

// The row of the negated goal afterwards, by each variable's row afterwards; none of goal 0.
fn against(
    ranges: [Range; 8],
    preds: [Row; 14],
    new: [Row; 8],
    goal: usize,
    index: usize,
) -> Option<Row>
    requires { (goal ≤ 2 → index < 14) × (2 < goal → index < 8) × SmallRanges ranges × ((i : ℕ) → Read (get_or preds i no_row))
        × ((i : ℕ) → Read (get_or new i no_row)) }
    ensures { (result ≡ against ranges preds new goal index) × IfSome result After }
{
    if goal == 0 {
        return None;
    }
    let row = goal_row(ranges, preds, goal, index);
    Some(sums::after(refuter(goal, row), new))
}

// The largest value, over the ranges, of the sum of the lemma that begins at an index, by what its source offers.
pub fn weigh(loaded: &Loaded<'_>, source: Source, lemmas: &[u32], at: usize) -> Option<i64>
    requires { IsLemma (the_program loaded.now.words.now) lemmas.now at
        × (source ≡ source_of (the_program loaded.now.words.now) (bits 27 20 (get_or lemmas.now at 0))) }
    ensures { result ≡ exact (largest_of (the_program loaded.now.words.now) (the_lemma (the_program loaded.now.words.now) lemmas.now at)) }
{
    let image = loaded.image;
    let w = reader::word_at(lemmas, at);
    let s = reader::word_at(lemmas, at + 1);
    let goal = against(
        image.ranges,
        image.pred,
        source.new,
        words::goal(w),
        words::index(w),
    );
    let preds = &image.pred[..image.preds];
    let rows = &source.rows[..source.count];
    let mults = &lemmas[at + 2..];
    let sum = acceptance::lemma_sum(goal, preds, s % 268435456, rows, mults);
    rows::largest(sum, image.ranges)
}

// The same of one lemma, whose source is read first.
fn weigh_one(loaded: &Loaded<'_>, lemmas: &[u32], at: usize) -> Option<i64>
    requires { IsLemma (the_program loaded.now.words.now) lemmas.now at }
    ensures { result ≡ exact (largest_of (the_program loaded.now.words.now) (the_lemma (the_program loaded.now.words.now) lemmas.now at)) }
{
    let w = reader::word_at(lemmas, at);
    let source = loaded.source(words::source(w));
    weigh(loaded, source, lemmas, at)
}

// What Ask answers.
#[derive(Clone, Copy)]
pub enum Asked {
    Accepted,
    NotAccepted,
}

// Accepted exactly when the largest value is below 0.
fn answer(k: usize, largest: Option<i64>) -> Result<Asked, Refusal>
    ensures { result ≡ weighed k largest }
{
    let z = largest.ok_or(Refusal::Sum(k))?;
    if z < 0 {
        Ok(Asked::Accepted)
    } else {
        Ok(Asked::NotAccepted)
    }
}

// Ask: is lemma k of the list accepted?
pub fn ask(words: &[u32], lemmas: &[u32], k: usize) -> Result<Asked, Refusal>
    ensures answer { result ≡ ask words.now lemmas.now k }
    ensures truth { result ≡ Ok Accepted → TrueIn (read words.now) lemmas.now k }
{
    let image = programs::load(words)?;
    let loaded = Loaded {
        words,
        image: &image,
    };
    let mut begins = [0; 512];
    let count = lemmas::list(&loaded, lemmas, &mut begins)?;
    if count <= k {
        return Err(Refusal::Absent(k));
    }
    answer(k, weigh_one(&loaded, lemmas, begins[k] as usize))
}
