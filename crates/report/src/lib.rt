// What the operator's program prints for the bytes of a show.
#![tactic(auto)]

ghost use Rattle.std.specs.Prelude.{◌≡◌, List, ◌++◌, ℕ, ◌+◌, ◌<◌, ◌≤◌, length, take, drop};
ghost use Rattle.records.specs.Records.{graph_words};
ghost use Rattle.verdict.specs.Verdicts.{path_words, steps_in};
ghost use Rattle.lines.specs.Text.{text};
ghost use Rattle.lines.specs.Puts.{Put};
ghost use Rattle.show.specs.Show.{most_bytes, SafeShow};
ghost use Rattle.report.specs.Report.{zeros, end_text, run_off_line, refused_line};
ghost use Rattle.report.specs.Report.{step_text, path_line, answer_lines, shown_lines, lines_of, written};
ghost use Rattle.report.specs.Report.{Begins, Ends, ShortestShow};

use judge::Judged;
use show::{Answered, Unread};
use words::{Kind, Refusal};

// The end of a range.
fn put_end(out: &mut [u8], at: usize, high: bool) -> usize
    requires { at + length (end_text high) ≤ length out.old }
    ensures { Put out.old at (end_text high) out.new result }
{
    let text: &[u8] = if high { b" high\n" } else { b" low\n" };
    lines::put_bytes(out, at, text)
}

// RUNOFF node N action A variable V low, or high
#[tactic(auto, using(crate::proofs::Sizes::puts))]
fn put_run_off(out: &mut [u8], node: usize, action: usize, variable: usize, high: bool) -> usize
    requires { length (run_off_line node action variable high) ≤ length out.old }
    ensures { Put out.old 0 (run_off_line node action variable high) out.new result }
{
    let at = lines::put_field(out, 0, b"RUNOFF node ", node);
    let next = lines::put_field(out, at, b" action ", action);
    let last = lines::put_field(out, next, b" variable ", variable);
    put_end(out, last, high)
}

// REFUSED R AT P
fn put_refused(out: &mut [u8], why: Refusal) -> usize
    requires { length (refused_line why) ≤ length out.old }
    ensures { Put out.old 0 (refused_line why) out.new result }
{
    lines::put_line(
        out,
        b"REFUSED ",
        why.number() as usize,
        b" AT ",
        why.value(),
    )
}

// Each action of the path after a space.
fn put_steps(out: &mut [u8], at: usize, path: &[u32]) -> usize
    requires { at + length (step_text (steps_in path.now)) ≤ length out.old }
    ensures { Put out.old at (step_text (steps_in path.now)) out.new result }
{
    let mut place = at;
    for w in path {
        if Kind::of(*w) != Kind::STEP {
            return place;
        }
        place = lines::put_field(out, place, b" ", words::count(*w));
    }
    place
}

// PATH and its actions
#[tactic(auto, using(crate::proofs::Sizes::puts))]
fn put_path(out: &mut [u8], at: usize, path: &[u32]) -> usize
    requires { at + length (path_line (steps_in path.now)) ≤ length out.old }
    ensures { Put out.old at (path_line (steps_in path.now)) out.new result }
{
    let next = lines::put_bytes(out, at, b"PATH");
    let last = put_steps(out, next, path);
    lines::put_bytes(out, last, b"\n")
}

// The lines of an answer.
#[tactic(auto, using(crate::proofs::Sizes::puts), unfolding(crate::specs::Report::answer_lines))]
fn put_answer(out: &mut [u8], answer: Result<Judged, Refusal>, path: &[u32]) -> usize
    requires { length (answer_lines answer path.now) ≤ length out.old }
    ensures { Put out.old 0 (answer_lines answer path.now) out.new result }
{
    match answer {
        Ok(Judged::Safe(nodes, edges)) => {
            lines::put_line(out, b"SAFE nodes ", nodes, b" edges ", edges)
        }
        Ok(Judged::MayForbid(node, bad, _, _)) => {
            let at = lines::put_line(out, b"FORBID node ", node, b" bad ", bad);
            put_path(out, at, path)
        }
        Ok(Judged::MayRunOff(node, action, variable, high, _, _)) => {
            let at = put_run_off(out, node, action, variable, high);
            put_path(out, at, path)
        }
        Err(why) => put_refused(out, why),
    }
}

// A fresh graph list. The contract names the list, so that no caller sees its zeros.
#[tactic(auto, unfolding(crate::specs::Report::zeros))]
fn graph_list() -> [u32; records::ROOM]
    ensures { (graph_words ≡ length result) × (result ≡ zeros graph_words) }
{
    [0; records::ROOM]
}

// A fresh path list.
#[tactic(auto, unfolding(crate::specs::Report::zeros))]
fn path_list() -> [u32; verdict::PATH_ROOM]
    ensures { (path_words ≡ length result) × (result ≡ zeros path_words) }
{
    [0; verdict::PATH_ROOM]
}

// The lines of an answer for a show's bytes.
#[tactic(auto, using(crate::proofs::Sizes::puts), unfolding(crate::specs::Report::shown_lines))]
fn put_shown(out: &mut [u8], shown: Result<Answered, Unread>, path: &[u32]) -> usize
    requires { length (shown_lines shown path.now) ≤ length out.old }
    ensures { Put out.old 0 (shown_lines shown path.now) out.new result }
{
    match shown {
        Ok(answer) => put_answer(out, answer.judged, path),
        Err(Unread::WordsShort) => 0,
        Err(Unread::TooLong) => lines::put_bytes(out, 0, b"TOO LONG\n"),
        Err(Unread::OddBytes) => lines::put_bytes(out, 0, b"ODD BYTES\n"),
    }
}

// The lines of any bytes, at the front of `lines`; answers how many bytes they have. Where `lines` has under 4,096 bytes it is left, and the
// answer is 0. Of more than 65,536 bytes, those behind the first 65,537 change nothing. If what was written begins with SAFE, the logic in the input is safe;
// if it ends with a PATH line, no walk in the graph to a node with a finding has fewer steps, and every run with fewer moves is safe.
pub fn report(input: &[u8], lines: &mut [u8]) -> usize
    ensures lines { (lines.new
        ≡ written input.now lines.old ++ drop (length (written input.now lines.old)) lines.old)
        × (result ≡ length (written input.now lines.old)) }
    ensures cut { (more : List ℕ) → most_bytes < length input.now → lines_of (input.now ++ more) ≡ lines_of input.now }
    ensures safe { Begins (text "SAFE") (take result lines.new) → SafeShow input.now }
    ensures shortest { (js : List ℕ) → Ends (path_line js) (take result lines.new) → ShortestShow input.now (length js) }
{
    if lines.len() < 4096 {
        return 0;
    }
    let mut words = little::space();
    let mut graph = graph_list();
    let mut path = path_list();
    let shown = show::show(input, &mut words, &mut graph, &mut path);
    put_shown(lines, shown, &path)
}
