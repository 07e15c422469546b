// The sum of a lemma's rows, each times the number in its MULT word.
#![tactic(auto)]

ghost use Rattle.std.specs.Prelude.{◌≡◌, map, ℕ, ◌+◌, ◌<◌, ◌≤◌, pos, length, get_or, IfSome};
ghost use Rattle.rows.specs.Bounds.{Small, Read, no_row};
ghost use Rattle.words.specs.LiteralSets.{has};
ghost use Rattle.runs.specs.Values.{row_if, premise_rows};
ghost use Rattle.sums.specs.Sums.{const_row, combine};
ghost use Rattle.sums.specs.Fits.{RowFits, After};
ghost use Rattle.acceptance.specs.Adding.{mult_of, add_row, add_rows, goal_rows, lemma_rows, Fine};

use rows::Row;

// The number in a MULT word.
fn multiplier(w: u32) -> i64
    ensures { result ≡ mult_of w }
{
    i64::from(w % 65536)
}

// Is the literal at place j in the set?
fn in_set(set: u32, j: usize) -> bool
    requires { j < 32 }
    ensures { result ≡ has j set }
{
    (set >> j) % 2 == 1
}

// A sum of rows, and the index of the next MULT word.
#[derive(Clone, Copy)]
pub struct Sum {
    pub row: Row,
    pub used: usize,
}

impl Sum {
    // A row more, times the next number.
    fn add_row(self, r: Row, mults: &[u32]) -> Sum
        requires { (self.used < length mults.now) × RowFits self.row (mult_of (get_or mults.now self.used 0)) r }
        ensures { result ≡ add_row mults.now self r }
    {
        let k = multiplier(mults[self.used]);
        Sum {
            row: sums::add_scaled(self.row, k, r),
            used: self.used + 1,
        }
    }

    // The row more if it is wanted.
    fn add_if(self, wanted: bool, r: Row, mults: &[u32]) -> Sum
        requires { (self.used + length (row_if wanted r) ≤ length mults.now) × RowFits self.row (mult_of (get_or mults.now self.used 0)) r }
        ensures { result ≡ add_rows mults.now self (row_if wanted r) }
    {
        if wanted { self.add_row(r, mults) } else { self }
    }

    // The premises more: the set's literals, by rising predicate.
    pub fn add_premises(self, preds: &[Row], set: u32, mults: &[u32]) -> Sum
        requires room { (length preds.now ≤ 14) × (self.used + length (premise_rows 0 preds.now set) ≤ length mults.now) }
        requires fine { Fine 0 self.row }
        requires by_index { (i : ℕ) → Read (get_or preds.now i no_row) }
        ensures { (result ≡ add_rows mults.now self (premise_rows 0 preds.now set)) × Fine 28 result.row }
    {
        let mut s = self;
        for (p, r) in preds.iter().enumerate() {
            let q = rows::negate(*r);
            s = s.add_if(in_set(set, p), *r, mults);
            s = s.add_if(in_set(set, 14 + p), q, mults);
        }
        s
    }

    // The rows more.
    pub fn add_rows(self, rows: &[Row], mults: &[u32]) -> Sum
        requires room { (length rows.now ≤ 8) × (self.used + length rows.now ≤ length mults.now) }
        requires fine { Fine 28 self.row }
        requires by_index { (i : ℕ) → Read (get_or rows.now i no_row) }
        ensures { (result ≡ add_rows mults.now self rows.now) × Fine 42 result.row }
    {
        let mut s = self;
        for r in rows {
            s = s.add_row(*r, mults);
        }
        s
    }
}

// The sum of a lemma's rows: the negated goal if there is a goal, the premises, and the rows of the source. Its MULT words are the first of `mults`.
pub fn lemma_sum(goal: Option<Row>, preds: &[Row], set: u32, rows: &[Row], mults: &[u32]) -> Row
    requires room { (length preds.now ≤ 14) × (length rows.now ≤ 8) × (length (lemma_rows goal preds.now set rows.now) ≤ length mults.now) }
    requires after { IfSome goal After }
    requires by_index { ((i : ℕ) → Read (get_or preds.now i no_row)) × ((i : ℕ) → Read (get_or rows.now i no_row)) }
    ensures { (result ≡ combine (const_row (pos 0)) (map mult_of mults.now) (lemma_rows goal preds.now set rows.now)) × Small result }
{
    let none = Sum {
        row: Row::ZERO,
        used: 0,
    };
    let s = match goal {
        Some(q) => none.add_row(q, mults),
        None => none,
    };
    s.add_premises(preds, set, mults).add_rows(rows, mults).row
}
