// Programs: the reader of all parts, Check and Action part.
#![tactic(auto)]

ghost use Rattle.std.specs.Prelude.{◌≡◌, ◌+◌, ◌-◌, ◌<◌, ◌≤◌, length, take, drop, replicate};
ghost use Rattle.words.specs.Words.{no_literals, VAR, ACTION, SETS};
ghost use Rattle.grammar.specs.Reading.{many};
ghost use Rattle.grammar.specs.Grammar.{ranges, rows, action, combination, literals_allowed, end};
ghost use Rattle.reader.specs.Results.{next_of};
ghost use Rattle.programs.specs.Calls.{read, check, action_part, PartOf, part_place, StandsAt, word_at};
ghost use Rattle.programs.specs.Images.{ranges_from, zero_ranges, counted_read, none_stored, actions_from, forbidden_from, loaded, rest, rest_loaded};

use rows::{Range, Row};
use words::{Kind, Literals, Refusal};

// Ranges from place 0 on, and how many.
#[derive(Clone, Copy)]
pub struct Ranges {
    pub ranges: [Range; 8],
    pub count: usize,
}

// The 1 to 8 ranges at the front of the list, and where reading goes on.
// A `while`, as in the two loops over items below: the kind of the next word ends it, and one item too many is refused within it. The three stay apart: the
// contract of one for all would name the item's reader, what is stored of it and its law, and be longer than a loop.
fn read_ranges(words: &[u32]) -> Result<(Ranges, usize), Refusal>
    ensures { result ≡ ranges_from zero_ranges 0 0 (ranges words.now 0) }
{
    if !reader::begins(words, 0, Kind::VAR) {
        return Err(Refusal::Word(0));
    }
    let mut ranges = [Range { low: 0, high: 0 }; 8];
    let mut k: usize = 0;
    while reader::begins(words, k, Kind::VAR) {
        let w = reader::word_at(words, k);
        let low = words::low_end(w);
        let high = words::high_end(w);
        reader::read_word(words, k, k, Kind::VAR, true, k < 8, low <= high)?;
        ranges[k] = Range { low, high };
        k += 1;
    }
    Ok((Ranges { ranges, count: k }, k))
}

// Rows from place 0 on, and how many.
#[derive(Clone, Copy)]
pub struct Counted {
    pub rows: [Row; 14],
    pub count: usize,
}

// The word at an index, INIT or PRED, and as many rows as it says; and where reading goes on.
fn read_counted(
    words: &[u32],
    at: usize,
    kind: Kind,
    most: usize,
    vars: usize,
) -> Result<(Counted, usize), Refusal>
    requires { (vars ≤ 8) × (most ≤ 14) × (at ≤ length words.now) }
    ensures { result ≡ counted_read (rows kind.0 most vars (drop at words.now) at) }
{
    let count = words::count(reader::word_at(words, at));
    let start = reader::read_word(words, at, at, kind, true, count <= most, true)?;
    let (rows, end) = reader::read_rows(words, start, count, vars)?;
    Ok((Counted { rows, count }, end))
}

// How many rows there are to go by before, an action's guards, and which variables are set.
#[derive(Clone, Copy)]
pub struct Shape {
    pub count: usize,
    pub set: [bool; 8],
}

// Where each action begins and its shape, and how many there are.
#[derive(Clone, Copy)]
pub struct Actions {
    pub begin_at: [usize; 16],
    pub shapes: [Shape; 16],
    pub count: usize,
}

// The 0 to 16 actions from an index on, and where reading goes on.
fn read_actions(words: &[u32], at: usize, vars: usize) -> Result<(Actions, usize), Refusal>
    requires { (vars ≤ 8) × (at ≤ length words.now) }
    ensures { result ≡ actions_from none_stored 0 at (many ACTION (action vars) 16 (drop at words.now) at) }
{
    let blank = Shape {
        count: 0,
        set: [false; 8],
    };
    let mut begin_at = [0usize; 16];
    let mut shapes = [blank; 16];
    let mut i = at;
    let mut k: usize = 0;
    while reader::begins(words, i, Kind::ACTION) {
        let (action, next) = actions::read_action(words, i, vars, k < 16)?;
        let count = action.guards;
        let set = action.set;
        begin_at[k] = i;
        shapes[k] = Shape { count, set };
        i = next;
        k += 1;
    }
    Ok((
        Actions {
            begin_at,
            shapes,
            count: k,
        },
        i,
    ))
}

// Forbidden combinations from place 0 on, and how many.
#[derive(Clone, Copy)]
pub struct Forbidden {
    pub literals: [Literals; 8],
    pub count: usize,
}

// Is every predicate of a SETS word one of the program's, and none in both sets?
pub fn literals_allowed(w: u32, preds: usize) -> bool
    requires { preds ≤ 14 }
    ensures { result ≡ literals_allowed preds w }
{
    let most = 1u32 << preds;
    let known_false = w / 16384 % 16384;
    let known_true = w % 16384;
    known_false < most && known_true < most && known_false & known_true == 0
}

// The 0 to 8 forbidden combinations from an index on, and where reading goes on.
fn read_forbidden(words: &[u32], at: usize, preds: usize) -> Result<(Forbidden, usize), Refusal>
    requires { (preds ≤ 14) × (at ≤ length words.now) }
    ensures { result ≡ forbidden_from (replicate 8 no_literals) 0 at (many SETS (combination preds) 8 (drop at words.now) at) }
{
    let mut literals = [Literals::EMPTY; 8];
    let mut i = at;
    let mut k: usize = 0;
    while reader::begins(words, i, Kind::SETS) {
        let w = reader::word_at(words, i);
        let allowed = literals_allowed(w, preds);
        i = reader::read_word(words, i, i, Kind::SETS, true, k < 8, allowed)?;
        literals[k] = Literals::of(w);
        k += 1;
    }
    Ok((Forbidden { literals, count: k }, i))
}

// END at an index, and nothing after it.
fn read_end(words: &[u32], at: usize) -> Result<usize, Refusal>
    requires { at ≤ length words.now }
    ensures { result ≡ next_of (end (drop at words.now) at) }
{
    let w = reader::word_at(words, at);
    let i = reader::read_word(words, at, at, Kind::END, w % 268435456 == 0, true, true)?;
    if i < words.len() {
        Err(Refusal::Word(i))
    } else {
        Ok(i)
    }
}

// A program as the calls work on it: its ranges, start rows, predicates and forbidden combinations, and of each action where it begins in the list and its
// shape.
#[derive(Clone, Copy)]
pub struct Image {
    pub vars: usize,
    pub ranges: [Range; 8],
    pub starts: usize,
    pub start: [Row; 14],
    pub preds: usize,
    pub pred: [Row; 14],
    pub actions: usize,
    pub action_at: [usize; 16],
    pub shapes: [Shape; 16],
    pub forbidden: usize,
    pub literals: [Literals; 8],
}

// The five counts of a program.
#[derive(Clone, Copy)]
pub struct Counts {
    pub variables: usize,
    pub start_rows: usize,
    pub predicates: usize,
    pub actions: usize,
    pub forbidden: usize,
}

// The image of the program that the words are, or why they are none.
// Within its callers its images lie over theirs, which keeps the library within 64 KiB of stack.
#[inline(always)]
pub fn load(words: &[u32]) -> Result<Image, Refusal>
    ensures { result ≡ loaded (read words.now) }
{
    let (ranges, at) = read_ranges(words)?;
    let (start, next) = read_counted(words, at, Kind::INIT, 8, ranges.count)?;
    let (preds, end) = read_counted(words, next, Kind::PRED, 14, ranges.count)?;
    load_rest(words, end, &ranges, &start, &preds)
}

// The actions, the forbidden combinations and the end, after the ranges, the start rows and the predicates.
fn load_rest(
    words: &[u32],
    at: usize,
    ranges: &Ranges,
    start: &Counted,
    preds: &Counted,
) -> Result<Image, Refusal>
    requires { (ranges.now.count ≤ 8) × (preds.now.count ≤ 14) × (at ≤ length words.now) }
    ensures { result ≡ rest_loaded ranges.now start.now preds.now (rest ranges.now.count preds.now.count (drop at words.now) at) at }
{
    let (actions, next) = read_actions(words, at, ranges.count)?;
    let (forbidden, end) = read_forbidden(words, next, preds.count)?;
    read_end(words, end)?;
    let Ranges {
        ranges,
        count: vars,
    } = *ranges;
    let Counted {
        rows: start,
        count: starts,
    } = *start;
    let Counted {
        rows: pred,
        count: preds,
    } = *preds;
    let Actions {
        begin_at: action_at,
        shapes,
        count: actions,
    } = actions;
    let Forbidden {
        literals,
        count: forbidden,
    } = forbidden;
    Ok(Image {
        vars,
        ranges,
        starts,
        start,
        preds,
        pred,
        actions,
        action_at,
        shapes,
        forbidden,
        literals,
    })
}

// Check: the five counts of the program that the words are, or why they are none.
pub fn check(words: &[u32]) -> Result<Counts, Refusal>
    ensures { result ≡ check words.now }
{
    let image = load(words)?;
    Ok(Counts {
        variables: image.vars,
        start_rows: image.starts,
        predicates: image.preds,
        actions: image.actions,
        forbidden: image.forbidden,
    })
}

// A part of the caller's list: where it begins, and how many words it has.
#[derive(Clone, Copy)]
pub struct Part {
    pub start: usize,
    pub length: usize,
}

// Where the words of action k stand in the caller's list; 0 and 0 where there is no such action or no program.
pub fn part_place(words: &[u32], k: usize) -> Part
    ensures place { result ≡ part_place words.now k }
    ensures part { StandsAt words.now result (action_part words.now k) }
{
    let none = Part {
        start: 0,
        length: 0,
    };
    let Ok(image) = load(words) else {
        return none;
    };
    if image.actions <= k {
        return none;
    }
    let start = image.action_at[k];
    let (_, end) = actions::read_action(words, start, image.vars, true).unwrap();
    Part {
        start,
        length: end - start,
    }
}

// Action part: the words of action k, as a part of the caller's list; empty where there is no such action or no program.
pub fn action_part(words: &[u32], k: usize) -> &[u32]
    ensures answer { result.now ≡ action_part words.now k }
    ensures part { PartOf words.now result.now }
    ensures place { result.ref_ptr ≡ word_at words.entry.ref_ptr (part_place words.now k).start }
{
    let place = part_place(words, k);
    let start = place.start;
    let end = start + place.length;
    &words[start..end]
}
