// Reading words and rows.
#![tactic(auto)]

ghost use Rattle.std.specs.Prelude.{◌≡◌, List, ℕ, ◌+◌, ◌<◌, ◌≤◌, ◌^◌, length, drop, get_or};
ghost use Rattle.grammar.specs.Reading.{one, begins, times};
ghost use Rattle.grammar.specs.Grammar.{row};
ghost use Rattle.feed.specs.Steps.{place, fed, begun};
ghost use Rattle.reader.specs.Results.{next_of, row_read, rows_read};

use feed::{Kept, Said};
use rows::Row;
use words::{Kind, Refusal};

// The word at an index, 0 past the end.
pub fn word_at(words: &[u32], at: usize) -> u32
    ensures { result ≡ get_or words.now at 0 }
{
    words.get(at).copied().unwrap_or(0)
}

// Is there a word of this kind at the index?
pub fn begins(words: &[u32], at: usize, kind: Kind) -> bool
    ensures { result ≡ begins kind.0 (drop at words.now) }
{
    words.get(at).is_some_and(|w| Kind::of(*w) == kind)
}

// The word at a place of a part, whose index in the whole list is `index`, and what the tests say of it: no unnamed bit, within the limits, allowed.
// It gives the index where reading goes on.
pub fn read_word(
    part: &[u32],
    at: usize,
    index: usize,
    kind: Kind,
    named: bool,
    within: bool,
    allowed: bool,
) -> Result<usize, Refusal>
    requires { at < length part.now → index + 1 < 2 ^ 64 }
    ensures { result ≡ next_of (one kind.0 (λ w. named) (λ w. within) (λ w. allowed) (drop at part.now) index) }
{
    if !begins(part, at, kind) || !named {
        return Err(Refusal::Word(index));
    }
    if !within {
        return Err(Refusal::Limit(index));
    }
    if !allowed {
        return Err(Refusal::Value(index));
    }
    Ok(index + 1)
}

// The row of the steps that say complete, and where reading goes on.
fn complete(kept: Kept, coef: [i64; 8]) -> (Row, usize)
    requires { place kept < 2 ^ 64 }
    ensures { result ≡ (record { coef = coef; constant = kept.constant }, place kept) }
{
    let constant = kept.constant;
    (Row { coef, constant }, kept.from + kept.taken)
}

// The row at the front of a part of the word list, which begins at the index `base` of the whole list: the loop that feeds the steps the part's words, each
// once and in order, and then the end. None of the steps goes on at the end.
fn read_row(part: &[u32], base: usize, vars: usize) -> Result<(Row, usize), Refusal>
    requires { (vars ≤ 8) × (base + length part.now + 1 < 2 ^ 64) }
    ensures { result ≡ row_read (fed (begun vars base) part.now) }
{
    let mut kept = Kept {
        vars,
        from: base,
        taken: 0,
        low: 0,
        constant: 0,
    };
    let mut coef = [0i64; 8];
    for w in part {
        let answer = feed::row_step(kept, &mut coef, Some(*w));
        match answer.said? {
            Said::GoOn => kept = answer.kept,
            Said::Complete => return Ok(complete(answer.kept, coef)),
        }
    }
    feed::row_step(kept, &mut coef, None).said?;
    Ok(complete(kept, coef))
}

// The row that begins at an index: the part of the list from there on goes to the row reader. It is the grammar's row, and what the steps give, fed that part.
pub fn row_at(words: &[u32], at: usize, vars: usize) -> Result<(Row, usize), Refusal>
    requires { (vars ≤ 8) × (at ≤ length words.now) }
    ensures { (result ≡ row_read (row vars (drop at words.now) at)) × (result ≡ row_read (fed (begun vars at) (drop at words.now))) }
{
    read_row(&words[at..], at, vars)
}

// The n rows from an index on, from place 0 on, and where reading goes on.
pub fn read_rows(
    words: &[u32],
    at: usize,
    n: usize,
    vars: usize,
) -> Result<([Row; 14], usize), Refusal>
    requires { (vars ≤ 8) × (n ≤ 14) × (at ≤ length words.now) }
    ensures { result ≡ rows_read (times n (row vars) (drop at words.now) at) }
{
    let mut rows = [Row::ZERO; 14];
    let mut i = at;
    for slot in &mut rows[..n] {
        let (row, next) = row_at(words, i, vars)?;
        *slot = row;
        i = next;
    }
    Ok((rows, i))
}
