// States, runs and Step.
#![tactic(auto)]

ghost use Rattle.std.specs.Prelude.{◌≡◌, Ok, map, ℕ, ◌<◌, ◌≤◌, pos, length, take, get_or};
ghost use Rattle.std.specs.Int.{w32};
ghost use Rattle.std.proofs.Common.{SFits};
ghost use Rattle.rows.specs.Rows.{row_value};
ghost use Rattle.rows.specs.Bounds.{AllWithin, max_state};
ghost use Rattle.runs.specs.Runs.{on_range, lowest_off};
ghost use Rattle.runs.specs.Guards.{first_failing, Guarded};
ghost use Rattle.programs.specs.Calls.{read};
ghost use Rattle.runs.specs.Calls.{ready, step_call};
ghost use Rattle.runs.specs.Values.{padded, SmallRows, where_off, where_failing, begun, Good, tried};

use actions::Action;
use rows::{Range, Row};
use words::Refusal;

// The first of some rows that fails, and its value.
#[derive(Clone, Copy)]
pub struct Failing {
    pub row: usize,
    pub value: i64,
}

// What Step answers where nothing is refused.
#[derive(Clone, Copy)]
pub enum Stepped {
    Moved,
    // The first guard row that fails.
    NotEnabled(Failing),
    // The lowest variable whose new value is off its range.
    RunsOff(usize),
}

// The values of a state of at most eight variables, zero past the last one.
fn widened(state: &[i32]) -> [i64; 8]
    requires { length state.now ≤ 8 }
    ensures { result ≡ padded state.now }
{
    let mut x = [0; 8];
    for (v, value) in state.iter().enumerate() {
        x[v] = i64::from(*value);
    }
    x
}

// Is a value on its range?
fn on_range(range: Range, x: i64) -> bool
    ensures { result ≡ on_range range x }
{
    (range.low..=range.high).contains(&x)
}

// The lowest of some variables whose value is off its range.
fn lowest_off(ranges: &[Range], x: [i64; 8]) -> Option<usize>
    requires { length ranges.now ≤ 8 }
    ensures { result ≡ where_off (length ranges.now) (lowest_off ranges.now x) }
{
    for (v, range) in ranges.iter().enumerate() {
        if !on_range(*range, x[v]) {
            return Some(v);
        }
    }
    None
}

// The first of some rows that fails.
pub fn first_failing(rows: &[Row], x: [i64; 8]) -> Option<Failing>
    requires { SmallRows rows.now × AllWithin max_state x }
    ensures { result ≡ where_failing (first_failing rows.now x) }
{
    for (k, row) in rows.iter().enumerate() {
        let value = rows::value(*row, x);
        if value < 0 {
            return Some(Failing { row: k, value });
        }
    }
    None
}

// The value of each of eight rows.
fn values(rows: [Row; 8], x: [i64; 8]) -> [i64; 8]
    requires { SmallRows rows × AllWithin max_state x }
    ensures { result ≡ map (λ row. row_value row x) rows }
{
    rows.map(|row| rows::value(row, x))
}

// The first values, written to a state.
pub fn write(state: &mut [i32], x: [i64; 8])
    requires { (length state.old ≤ 8) × ((v : ℕ) → v < length state.old → SFits w32 (get_or x v (pos 0))) }
    ensures { state.new ≡ take (length state.old) x }
{
    for (v, value) in state.iter_mut().enumerate() {
        *value = x[v] as i32;
    }
}

// What trying an action begins with: the ranges, the state's values, the action's guard rows from place 0 on, and each variable's row.
#[derive(Clone, Copy)]
pub struct Begun {
    pub ranges: [Range; 8],
    pub old: [i64; 8],
    pub guards: usize,
    pub guard: [Row; 14],
    pub rows: [Row; 8],
}

// Action k of a program, read to be tried on a state.
pub fn begin(words: &[u32], k: usize, state: &[i32]) -> Result<Begun, Refusal>
    ensures { result ≡ begun (ready (read words.now) k state.now) k state.now }
{
    let image = programs::load(words)?;
    if image.actions <= k {
        return Err(Refusal::Absent(k));
    }
    let n = state.len();
    if n != image.vars {
        return Err(Refusal::Length(n));
    }
    let ranges = image.ranges;
    let old = widened(state);
    if let Some(outside) = lowest_off(&ranges[..n], old) {
        return Err(Refusal::State(outside));
    }
    let (action, _) = actions::read_action(words, image.action_at[k], n, true).unwrap();
    let Action {
        guards,
        guard,
        rows,
        ..
    } = action;
    Ok(Begun {
        ranges,
        old,
        guards,
        guard,
        rows,
    })
}

// An action, tried on a state.
fn take_action(b: Begun, state: &mut [i32]) -> Stepped
    requires { Good b × (length state.old ≤ 8) }
    ensures { (Ok result ≡ (tried b state.old).answer) × (state.new ≡ (tried b state.old).state) }
{
    if let Some(failing) = first_failing(&b.guard[..b.guards], b.old) {
        return Stepped::NotEnabled(failing);
    }
    let new = values(b.rows, b.old);
    if let Some(off) = lowest_off(&b.ranges[..state.len()], new) {
        return Stepped::RunsOff(off);
    }
    write(state, new);
    Stepped::Moved
}

// Step: action k of a program, taken on a lent state. Only `Moved` writes.
pub fn step(words: &[u32], k: usize, state: &mut [i32]) -> Result<Stepped, Refusal>
    ensures { (result ≡ (step_call words.now k state.old).answer)
        × (state.new ≡ (step_call words.now k state.old).state)
        × Guarded (ready (read words.now) k state.old) k state.old result }
{
    let begun = begin(words, k, state)?;
    Ok(take_action(begun, state))
}
