// Reading assignments and actions.
#![tactic(auto)]

ghost use Rattle.std.specs.Prelude.{◌≡◌, ◌&&◌, ◌≤◌, leb, length, drop};
ghost use Rattle.grammar.specs.Grammar.{assignment, sets, action};
ghost use Rattle.actions.specs.Results.{set_read, sets_read, action_read};

use rows::Row;
use words::{Kind, Refusal};

// A variable, and the row of its new value.
#[derive(Clone, Copy)]
pub struct Assignment {
    pub variable: usize,
    pub row: Row,
}

// The assignment at an index, to a variable from `low` on, and where reading goes on.
pub fn read_set(
    words: &[u32],
    at: usize,
    low: usize,
    vars: usize,
) -> Result<(Assignment, usize), Refusal>
    requires { (vars ≤ 8) × (at ≤ length words.now) }
    ensures { result ≡ set_read (assignment vars low (drop at words.now) at) }
{
    let variable = words::count(reader::word_at(words, at));
    let allowed = (low..vars).contains(&variable);
    let start = reader::read_word(words, at, at, Kind::SET, true, true, allowed)?;
    let (row, end) = reader::row_at(words, start, vars)?;
    Ok((Assignment { variable, row }, end))
}

// The row of each variable: its assignment's, or the one that keeps its value; and which variables are set.
#[derive(Clone, Copy)]
pub struct Sets {
    pub rows: [Row; 8],
    pub set: [bool; 8],
}

// The rows that keep every variable, written out: the value of a constant has no call.
pub const KEEP: [Row; 8] = [
    Row {
        coef: [1, 0, 0, 0, 0, 0, 0, 0],
        constant: 0,
    },
    Row {
        coef: [0, 1, 0, 0, 0, 0, 0, 0],
        constant: 0,
    },
    Row {
        coef: [0, 0, 1, 0, 0, 0, 0, 0],
        constant: 0,
    },
    Row {
        coef: [0, 0, 0, 1, 0, 0, 0, 0],
        constant: 0,
    },
    Row {
        coef: [0, 0, 0, 0, 1, 0, 0, 0],
        constant: 0,
    },
    Row {
        coef: [0, 0, 0, 0, 0, 1, 0, 0],
        constant: 0,
    },
    Row {
        coef: [0, 0, 0, 0, 0, 0, 1, 0],
        constant: 0,
    },
    Row {
        coef: [0, 0, 0, 0, 0, 0, 0, 1],
        constant: 0,
    },
];

// The n assignments from an index on, and where reading goes on.
pub fn read_sets(words: &[u32], at: usize, n: usize, vars: usize) -> Result<(Sets, usize), Refusal>
    requires { (vars ≤ 8) × (at ≤ length words.now) }
    ensures { result ≡ sets_read (sets vars n 0 (drop at words.now) at) }
{
    let mut rows = KEEP;
    let mut set = [false; 8];
    let mut low: usize = 0;
    let mut i = at;
    for _ in 0..n {
        let (Assignment { variable: v, row }, next) = read_set(words, i, low, vars)?;
        rows[v] = row;
        set[v] = true;
        low = v + 1;
        i = next;
    }
    Ok((Sets { rows, set }, i))
}

// An action: its guard rows from place 0 on, each variable's row, and which variables it sets.
#[derive(Clone, Copy)]
pub struct Action {
    pub guards: usize,
    pub guard: [Row; 14],
    pub rows: [Row; 8],
    pub set: [bool; 8],
}

// May the program have this action, with these counts?
fn few_enough(room: bool, guards: usize, assignments: usize) -> bool
    ensures { result ≡ (room && leb guards 8 && leb assignments 8) }
{
    room && guards <= 8 && assignments <= 8
}

// The action at an index, and where reading goes on. `room` says whether the program may have one more.
pub fn read_action(
    words: &[u32],
    at: usize,
    vars: usize,
    room: bool,
) -> Result<(Action, usize), Refusal>
    requires { (vars ≤ 8) × (at ≤ length words.now) }
    ensures { result ≡ action_read (action vars room (drop at words.now) at) }
{
    let w = reader::word_at(words, at);
    let named = w / 256 % 1048576 == 0;
    let guards = words::guards(w);
    let assignments = words::assignments(w);
    let few = few_enough(room, guards, assignments);
    let start = reader::read_word(words, at, at, Kind::ACTION, named, few, true)?;
    let (guard, next) = reader::read_rows(words, start, guards, vars)?;
    let (Sets { rows, set }, end) = read_sets(words, next, assignments, vars)?;
    Ok((
        Action {
            guards,
            guard,
            rows,
            set,
        },
        end,
    ))
}
