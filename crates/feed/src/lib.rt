// A row read in steps: a step sees one word, or the list's end, and a record of fixed size kept from the words before.
#![tactic(auto)]

ghost use Rattle.std.specs.Prelude.{◌≡◌, ◌+◌, ◌<◌, ◌≤◌, ◌^◌, List, ℤ, Some, None, Err};
ghost use Rattle.grammar.specs.Grammar.{coefficient_allowed, constant_allowed};
ghost use Rattle.grammar.proofs.TermLaws.{term_allowed};
ghost use Rattle.feed.specs.Steps.{place, row_step};
ghost use Rattle.feed.specs.Answers.{held, stepped};

use words::{Kind, Refusal};

// What a step says that does not refuse.
#[derive(Clone, Copy)]
pub enum Said {
    GoOn,
    Complete,
}

// What is kept of the words before: how many variables there are, the index where the row begins, how many of its words were taken, the least variable that the
// next TERM may have, and the constant.
#[derive(Clone, Copy)]
pub struct Kept {
    pub vars: usize,
    pub from: usize,
    pub taken: usize,
    pub low: usize,
    pub constant: i64,
}

// What is kept from here on, and what the step says.
#[derive(Clone, Copy)]
pub struct Answer {
    pub kept: Kept,
    pub said: Result<Said, Refusal>,
}

// A coefficient from -1,000 to 1,000, not 0.
fn coefficient_allowed(w: u32) -> bool
    ensures { result ≡ coefficient_allowed w }
{
    w % 65536 != 0 && (-1000..=1000).contains(&words::coefficient(w))
}

// A TERM whose variable is from `low` on and known, with an allowed coefficient.
fn term_allowed(w: u32, low: usize, vars: usize) -> bool
    ensures { result ≡ term_allowed low vars w }
{
    (low..vars).contains(&words::variable(w)) && coefficient_allowed(w)
}

// A constant from -1,000,000 to 1,000,000.
fn constant_allowed(w: u32) -> bool
    ensures { result ≡ constant_allowed w }
{
    (-1000000..=1000000).contains(&words::constant(w))
}

fn refused(kept: Kept, why: Refusal) -> Answer
    ensures { result ≡ record { kept = kept; said = Err why } }
{
    Answer {
        kept,
        said: Err(why),
    }
}

// The first word, which has to be a ROW.
fn first(kept: Kept, w: u32) -> Answer
    requires { kept.taken ≡ 0 }
    ensures { (c : List ℤ) → stepped result c ≡ row_step (held kept c) (Some w) }
{
    if Kind::of(w) != Kind::ROW {
        return refused(kept, Refusal::Word(kept.from));
    }
    if !constant_allowed(w) {
        return refused(kept, Refusal::Value(kept.from));
    }
    Answer {
        kept: Kept {
            taken: 1,
            low: 0,
            constant: words::constant(w),
            ..kept
        },
        said: Ok(Said::GoOn),
    }
}

// A word after the ROW.
fn later(kept: Kept, coef: &mut [i64; 8], w: u32) -> Answer
    requires { (0 < kept.taken) × (kept.vars ≤ 8) × (place kept + 1 < 2 ^ 64) }
    ensures { stepped result coef.new ≡ row_step (held kept coef.old) (Some w) }
{
    if Kind::of(w) != Kind::TERM {
        return Answer {
            kept,
            said: Ok(Said::Complete),
        };
    }
    let at = kept.from + kept.taken;
    if w / 65536 % 256 != 0 {
        return refused(kept, Refusal::Word(at));
    }
    if !term_allowed(w, kept.low, kept.vars) {
        return refused(kept, Refusal::Value(at));
    }
    let v = words::variable(w);
    coef[v] = words::coefficient(w);
    Answer {
        kept: Kept {
            taken: kept.taken + 1,
            low: v + 1,
            ..kept
        },
        said: Ok(Said::GoOn),
    }
}

// The list's end, which completes a row that was begun.
fn at_end(kept: Kept) -> Answer
    ensures { (c : List ℤ) → stepped result c ≡ row_step (held kept c) None }
{
    if kept.taken < 1 {
        return refused(kept, Refusal::Word(kept.from));
    }
    Answer {
        kept,
        said: Ok(Said::Complete),
    }
}

// One step. It writes the coefficient of a TERM, and reads none.
pub fn row_step(kept: Kept, coef: &mut [i64; 8], fed: Option<u32>) -> Answer
    requires { (kept.vars ≤ 8) × (place kept + 1 < 2 ^ 64) }
    ensures { stepped result coef.new ≡ row_step (held kept coef.old) fed }
{
    match fed {
        Some(w) if kept.taken == 0 => first(kept, w),
        Some(w) => later(kept, coef, w),
        None => at_end(kept),
    }
}
