// The calls for C and Rust: lists are lent, answers are records of numbers. include/bulanevior.h describes them for their callers.
#![tactic(auto)]

ghost use Rattle.std.specs.Prelude.{◌≡◌, ◌↔◌, ◌+◌, ◌≤◌, pos, ◌<ℤ◌, length, take, drop, Ok};
ghost use Rattle.programs.specs.Calls.{read, check, action_part, part_place};
ghost use Rattle.runs.specs.declared.Stepped.TheVariants.{NotEnabled};
ghost use Rattle.runs.specs.Calls.{step_call};
ghost use Rattle.runs.specs.Values.{Fits};
ghost use Rattle.rack.specs.Rack.{rack_call};
ghost use Rattle.ask.specs.Calls.{ask, TrueIn};
ghost use Rattle.judge.specs.Calls.{judge};
ghost use Rattle.judge.specs.Worth.{SafeOf};
ghost use Rattle.findings.specs.Calls.{listing};
ghost use Rattle.view.specs.Views.{viewed};
ghost use Rattle.show.specs.Show.{show, words_left, SafeShow};
ghost use Rattle.exports.specs.Numbers.{check_of, part_of, step_of, ask_of, judge_of, show_of, findings_of, successor_of, version};

use ask::Asked;
use judge::Judged;
use programs::{Counts, Part};
use runs::{Failing, Stepped};
use show::{Answered, Unread};
use words::Refusal;

// Major times 1,000,000, minor times 1,000, and patch.
pub const BNV_VERSION_NUMBER: u32 = 8001;

// The version of the library, for a caller to compare with that of its header.
#[unsafe(no_mangle)]
pub extern "C" fn bnv_version() -> u32
    ensures { result ≡ version }
{
    BNV_VERSION_NUMBER
}

// Answers are numbered from 1: a record of zeros is no answer, and permits nothing.
pub const BNV_GOOD: u32 = 1;

pub const BNV_CHECK_REFUSED: u32 = 2;

#[repr(C)]
#[derive(Clone, Copy)]
pub struct BnvCheck {
    // BNV_GOOD or BNV_CHECK_REFUSED.
    pub answer: u32,
    // 0 if there is none.
    pub refusal: u32,
    pub value: usize,
    pub variables: usize,
    pub start_rows: usize,
    pub predicates: usize,
    pub actions: usize,
    pub forbidden: usize,
}

impl From<Result<Counts, Refusal>> for BnvCheck {
    ghost from_gives = { λ checked b. b ≡ check_of checked };

    fn from(checked: Result<Counts, Refusal>) -> BnvCheck {
        match checked {
            Ok(n) => BnvCheck {
                answer: BNV_GOOD,
                refusal: 0,
                value: 0,
                variables: n.variables,
                start_rows: n.start_rows,
                predicates: n.predicates,
                actions: n.actions,
                forbidden: n.forbidden,
            },
            Err(why) => BnvCheck {
                answer: BNV_CHECK_REFUSED,
                refusal: why.number(),
                value: why.value(),
                variables: 0,
                start_rows: 0,
                predicates: 0,
                actions: 0,
                forbidden: 0,
            },
        }
    }
}

// Check.
#[unsafe(no_mangle)]
pub extern "C" fn bnv_check(words: &[u32]) -> BnvCheck
    ensures answer { result ≡ check_of (check words.now) }
    ensures nonzero { 1 ≤ result.answer }
{
    programs::check(words).into()
}

#[repr(C)]
#[derive(Clone, Copy)]
pub struct BnvPart {
    pub start: usize,
    pub length: usize,
}

impl From<Part> for BnvPart {
    ghost from_gives = { λ p b. b ≡ part_of p };

    fn from(part: Part) -> BnvPart {
        BnvPart {
            start: part.start,
            length: part.length,
        }
    }
}

// Action part, as its place in the caller's list.
#[unsafe(no_mangle)]
pub extern "C" fn bnv_action_part(words: &[u32], k: usize) -> BnvPart
    ensures answer { result ≡ part_of (part_place words.now k) }
    ensures part { (take result.length (drop result.start words.now) ≡ action_part words.now k)
        × (result.start + result.length ≤ length words.now) × (result.length ≡ length (action_part words.now k)) }
{
    programs::part_place(words, k).into()
}

pub const BNV_NOT_ENABLED: u32 = 1;

pub const BNV_RUNS_OFF: u32 = 2;

pub const BNV_STEP_REFUSED: u32 = 3;

pub const BNV_MOVED: u32 = 4;

#[repr(C)]
#[derive(Clone, Copy)]
pub struct BnvStep {
    pub answer: u32,
    // The first guard row that fails, and its value; the two stand where there was padding.
    pub row: u32,
    pub variable: usize,
    pub refusal: u32,
    pub row_value: i32,
    pub value: usize,
}

impl BnvStep {
    const ZERO: BnvStep = BnvStep {
        answer: 0,
        row: 0,
        variable: 0,
        refusal: 0,
        row_value: 0,
        value: 0,
    };
}

// A function and no `From`: the guard row that fails has to fit 32 bits, and a `From` requires nothing.
fn step_of(stepped: Result<Stepped, Refusal>) -> BnvStep
    requires { (f : Failing) → stepped ≡ Ok (NotEnabled f) → Fits f }
    ensures { result ≡ step_of stepped }
{
    match stepped {
        Ok(Stepped::Moved) => BnvStep {
            answer: BNV_MOVED,
            ..BnvStep::ZERO
        },
        Ok(Stepped::NotEnabled(failing)) => BnvStep {
            answer: BNV_NOT_ENABLED,
            row: failing.row as u32,
            row_value: failing.value as i32,
            ..BnvStep::ZERO
        },
        Ok(Stepped::RunsOff(variable)) => BnvStep {
            answer: BNV_RUNS_OFF,
            variable,
            ..BnvStep::ZERO
        },
        Err(why) => BnvStep {
            answer: BNV_STEP_REFUSED,
            refusal: why.number(),
            value: why.value(),
            ..BnvStep::ZERO
        },
    }
}

// Step.
#[unsafe(no_mangle)]
pub extern "C" fn bnv_step(words: &[u32], k: usize, state: &mut [i32]) -> BnvStep
    ensures answer { result ≡ step_of (step_call words.now k state.old).answer }
    ensures state { state.new ≡ (step_call words.now k state.old).state }
    ensures nonzero { 1 ≤ result.answer }
    ensures below { (result.answer ≡ 1) ↔ (result.row_value <ℤ pos 0) }
{
    step_of(runs::step(words, k, state))
}

// The rack's step. It never answers BNV_RUNS_OFF.
#[unsafe(no_mangle)]
pub extern "C" fn bnv_rack_step(words: &[u32], k: usize, state: &mut [i32]) -> BnvStep
    ensures answer { result ≡ step_of (rack_call words.now k state.old).answer }
    ensures state { state.new ≡ (rack_call words.now k state.old).state }
    ensures nonzero { 1 ≤ result.answer }
    ensures never_off { result.answer ≡ 2 → ⊥ }
    ensures below { (result.answer ≡ 1) ↔ (result.row_value <ℤ pos 0) }
{
    step_of(rack::rack_step(words, k, state))
}

pub const BNV_NOT_ACCEPTED: u32 = 1;

pub const BNV_ASK_REFUSED: u32 = 2;

pub const BNV_ACCEPTED: u32 = 3;

#[repr(C)]
#[derive(Clone, Copy)]
pub struct BnvAsk {
    pub answer: u32,
    pub refusal: u32,
    pub value: usize,
}

impl BnvAsk {
    const ZERO: BnvAsk = BnvAsk {
        answer: 0,
        refusal: 0,
        value: 0,
    };
}

impl From<Result<Asked, Refusal>> for BnvAsk {
    ghost from_gives = { λ asked b. b ≡ ask_of asked };

    fn from(asked: Result<Asked, Refusal>) -> BnvAsk {
        match asked {
            Ok(Asked::Accepted) => BnvAsk {
                answer: BNV_ACCEPTED,
                ..BnvAsk::ZERO
            },
            Ok(Asked::NotAccepted) => BnvAsk {
                answer: BNV_NOT_ACCEPTED,
                ..BnvAsk::ZERO
            },
            Err(why) => BnvAsk {
                answer: BNV_ASK_REFUSED,
                refusal: why.number(),
                value: why.value(),
            },
        }
    }
}

// Ask.
#[unsafe(no_mangle)]
pub extern "C" fn bnv_ask(words: &[u32], lemmas: &[u32], k: usize) -> BnvAsk
    ensures answer { result ≡ ask_of (ask words.now lemmas.now k) }
    ensures nonzero { 1 ≤ result.answer }
    ensures truth { result.answer ≡ 3 → TrueIn (read words.now) lemmas.now k }
{
    ask::ask(words, lemmas, k).into()
}

pub const BNV_MAY_FORBID: u32 = 1;

pub const BNV_MAY_RUN_OFF: u32 = 2;

pub const BNV_JUDGE_REFUSED: u32 = 3;

pub const BNV_SAFE: u32 = 4;

#[repr(C)]
#[derive(Clone, Copy)]
pub struct BnvJudge {
    pub verdict: u32,
    pub node: usize,
    // The forbidden combination, or the action that may run off.
    pub place: usize,
    pub variable: usize,
    // 1 for the high end.
    pub high: u32,
    pub nodes: usize,
    pub edges: usize,
    pub refusal: u32,
    pub value: usize,
}

impl BnvJudge {
    const ZERO: BnvJudge = BnvJudge {
        verdict: 0,
        node: 0,
        place: 0,
        variable: 0,
        high: 0,
        nodes: 0,
        edges: 0,
        refusal: 0,
        value: 0,
    };
}

impl From<Result<Judged, Refusal>> for BnvJudge {
    ghost from_gives = { λ judged b. b ≡ judge_of judged };

    fn from(judged: Result<Judged, Refusal>) -> BnvJudge {
        match judged {
            Ok(Judged::Safe(nodes, edges)) => BnvJudge {
                verdict: BNV_SAFE,
                nodes,
                edges,
                ..BnvJudge::ZERO
            },
            Ok(Judged::MayForbid(node, bad, nodes, edges)) => BnvJudge {
                verdict: BNV_MAY_FORBID,
                node,
                place: bad,
                nodes,
                edges,
                ..BnvJudge::ZERO
            },
            Ok(Judged::MayRunOff(node, action, variable, high, nodes, edges)) => BnvJudge {
                verdict: BNV_MAY_RUN_OFF,
                node,
                place: action,
                variable,
                high: u32::from(high),
                nodes,
                edges,
                ..BnvJudge::ZERO
            },
            Err(why) => BnvJudge {
                verdict: BNV_JUDGE_REFUSED,
                refusal: why.number(),
                value: why.value(),
                ..BnvJudge::ZERO
            },
        }
    }
}

// Judge.
#[unsafe(no_mangle)]
pub extern "C" fn bnv_judge(
    words: &[u32],
    lemmas: &[u32],
    graph: &mut [u32],
    path: &mut [u32],
) -> BnvJudge
    ensures answer { result ≡ judge_of (judge words.now lemmas.now graph.old path.old).answer }
    ensures graph { graph.new ≡ (judge words.now lemmas.now graph.old path.old).graph }
    ensures path { path.new ≡ (judge words.now lemmas.now graph.old path.old).path }
    ensures nonzero { 1 ≤ result.verdict }
    ensures demand3 { result.verdict ≡ 4 → SafeOf (read words.now) }
{
    judge::judge(words, lemmas, graph, path).into()
}

pub const BNV_FINDINGS_REFUSED: u32 = 1;

pub const BNV_LISTED: u32 = 2;

#[repr(C)]
#[derive(Clone, Copy)]
pub struct BnvFindings {
    pub answer: u32,
    pub refusal: u32,
    pub value: usize,
    // How many findings there are.
    pub count: usize,
}

impl From<Result<usize, Refusal>> for BnvFindings {
    ghost from_gives = { λ listed b. b ≡ findings_of listed };

    fn from(listed: Result<usize, Refusal>) -> BnvFindings {
        match listed {
            Ok(count) => BnvFindings {
                answer: BNV_LISTED,
                refusal: 0,
                value: 0,
                count,
            },
            Err(why) => BnvFindings {
                answer: BNV_FINDINGS_REFUSED,
                refusal: why.number(),
                value: why.value(),
                count: 0,
            },
        }
    }
}

// Findings.
#[unsafe(no_mangle)]
pub extern "C" fn bnv_findings(
    words: &[u32],
    lemmas: &[u32],
    graph: &mut [u32],
    findings: &mut [u32],
) -> BnvFindings
    ensures answer { result ≡ findings_of (listing words.now lemmas.now graph.old findings.old).answer }
    ensures graph { graph.new ≡ (listing words.now lemmas.now graph.old findings.old).graph }
    ensures findings { findings.new ≡ (listing words.now lemmas.now graph.old findings.old).list }
    ensures nonzero { 1 ≤ result.answer }
    ensures demand3 { result.answer ≡ 2 → result.count ≡ 0 → SafeOf (read words.now) }
{
    findings::findings(words, lemmas, graph, findings).into()
}

pub const BNV_TOO_LONG: u32 = 1;

pub const BNV_ODD_BYTES: u32 = 2;

pub const BNV_WORDS_SHORT: u32 = 3;

pub const BNV_JUDGED: u32 = 4;

#[repr(C)]
#[derive(Clone, Copy)]
pub struct BnvShow {
    pub answer: u32,
    // How many words of the words list are the logic, from its front, and how many behind it the lemmas.
    pub logic: usize,
    pub lemmas: usize,
    // Judge's answer; all 0 where it was not asked.
    pub judged: BnvJudge,
}

impl BnvShow {
    const ZERO: BnvShow = BnvShow {
        answer: 0,
        logic: 0,
        lemmas: 0,
        judged: BnvJudge::ZERO,
    };
}

impl From<Result<Answered, Unread>> for BnvShow {
    ghost from_gives = { λ shown b. b ≡ show_of shown };

    fn from(shown: Result<Answered, Unread>) -> BnvShow {
        match shown {
            Err(Unread::TooLong) => BnvShow {
                answer: BNV_TOO_LONG,
                ..BnvShow::ZERO
            },
            Err(Unread::OddBytes) => BnvShow {
                answer: BNV_ODD_BYTES,
                ..BnvShow::ZERO
            },
            Err(Unread::WordsShort) => BnvShow {
                answer: BNV_WORDS_SHORT,
                ..BnvShow::ZERO
            },
            Ok(answer) => BnvShow {
                answer: BNV_JUDGED,
                logic: answer.logic,
                lemmas: answer.lemmas,
                judged: answer.judged.into(),
            },
        }
    }
}

// Judge, of a show file's bytes. Only BNV_JUDGED writes the words list.
#[unsafe(no_mangle)]
pub extern "C" fn bnv_show(
    bytes: &[u8],
    words: &mut [u32],
    graph: &mut [u32],
    path: &mut [u32],
) -> BnvShow
    ensures answer { result ≡ show_of (show bytes.now words.old graph.old path.old).answer }
    ensures words { words.new
        ≡ words_left (show bytes.now words.old graph.old path.old).answer
        bytes.now words.old }
    ensures graph { graph.new ≡ (show bytes.now words.old graph.old path.old).graph }
    ensures path { path.new ≡ (show bytes.now words.old graph.old path.old).path }
    ensures safe { result.judged.verdict ≡ 4 → SafeShow bytes.now }
    ensures nonzero { 1 ≤ result.answer }
{
    show::show(bytes, words, graph, path).into()
}

pub const BNV_NO_NODE: u32 = 1;

pub const BNV_SUCCESSOR_REFUSED: u32 = 2;

pub const BNV_NODE: u32 = 3;

#[repr(C)]
#[derive(Clone, Copy)]
pub struct BnvSuccessor {
    pub answer: u32,
    pub node: usize,
    pub refusal: u32,
    pub value: usize,
}

impl BnvSuccessor {
    const ZERO: BnvSuccessor = BnvSuccessor {
        answer: 0,
        node: 0,
        refusal: 0,
        value: 0,
    };
}

impl From<Result<Option<usize>, Refusal>> for BnvSuccessor {
    ghost from_gives = { λ seen b. b ≡ successor_of seen };

    fn from(seen: Result<Option<usize>, Refusal>) -> BnvSuccessor {
        match seen {
            Ok(Some(node)) => BnvSuccessor {
                answer: BNV_NODE,
                node,
                ..BnvSuccessor::ZERO
            },
            Ok(None) => BnvSuccessor {
                answer: BNV_NO_NODE,
                ..BnvSuccessor::ZERO
            },
            Err(why) => BnvSuccessor {
                answer: BNV_SUCCESSOR_REFUSED,
                refusal: why.number(),
                value: why.value(),
                ..BnvSuccessor::ZERO
            },
        }
    }
}

// The reading view's successor.
#[unsafe(no_mangle)]
pub extern "C" fn bnv_successor(
    graph: &[u32],
    nodes: usize,
    actions: usize,
    node: usize,
    action: usize,
) -> BnvSuccessor
    ensures answer { result ≡ successor_of (viewed graph.now nodes actions node action) }
    ensures nonzero { 1 ≤ result.answer }
{
    view::successor_of(graph, nodes, actions, node, action).into()
}
