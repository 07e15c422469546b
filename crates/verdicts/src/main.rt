// Test vectors of Ask, Judge and Findings. Standard input is little-endian words: for each vector a count of words, and as many words: the call
// (3 Ask, 4 Judge, 5 Findings), a number k, the counts of program words and lemma words, the lengths of the lent graph list and of the path or
// findings list, the program, the lemmas. Each vector has one line on standard output; those of Judge and Findings end with a digest of each lent
// list. Input that breaks off inside a vector ends the run there.
#![tactic(auto)]

ghost use Rattle.std.specs.Prelude.{◌*◌, ◌<◌, ◌≤◌, length};

use ask::Asked;
use judge::Judged;
use std::io;
use std::io::{Read, Write};
use words::Refusal;

fn refused<W: Write>(out: &mut W, r: Refusal) -> io::Result<()> {
    write!(out, "REFUSED {} AT {}", r.number(), r.value())
}

fn asked<W: Write>(out: &mut W, a: Result<Asked, Refusal>) -> io::Result<()> {
    match a {
        Ok(Asked::Accepted) => write!(out, "ACCEPTED"),
        Ok(Asked::NotAccepted) => write!(out, "NOT ACCEPTED"),
        Err(why) => refused(out, why),
    }
}

fn judged<W: Write>(out: &mut W, j: Result<Judged, Refusal>) -> io::Result<()> {
    match j {
        Ok(Judged::Safe(nodes, edges)) => write!(out, "SAFE nodes {nodes} edges {edges}"),
        Ok(Judged::MayForbid(node, bad, nodes, edges)) => write!(
            out,
            "FORBID node {node} bad {bad} nodes {nodes} edges {edges}"
        ),
        Ok(Judged::MayRunOff(node, action, variable, high, nodes, edges)) => {
            let end = if high { "high" } else { "low" };
            write!(
                out,
                "RUNOFF node {node} action {action} variable {variable} {end}"
            )?;
            write!(out, " nodes {nodes} edges {edges}")
        }
        Err(why) => refused(out, why),
    }
}

// Each word its place after `first`.
fn fill(list: &mut [u32], first: u32)
    requires { (length list.old ≤ 16384) × (first < 4278190080) }
{
    for (i, place) in list.iter_mut().enumerate() {
        *place = first + i as u32;
    }
}

// The words of a list in one number below a prime near 2^32, which hangs on each of them and on their order.
fn digest(list: &[u32]) -> u64 {
    list.iter().fold(0, |h: u64, word| {
        (h % 4294967291 * 1000003 + u64::from(*word) + 1) % 4294967291
    })
}

fn listed<W: Write>(out: &mut W, l: Result<usize, Refusal>) -> io::Result<()> {
    match l {
        Ok(n) => write!(out, "FINDINGS {n}"),
        Err(why) => refused(out, why),
    }
}

// What is said of the two lent lists, and the lists at exit.
fn with_lists<W: Write, F: FnOnce(&mut W, &mut [u32], &mut [u32]) -> io::Result<()>>(
    out: &mut W,
    graph: &mut [u32],
    list: &mut [u32],
    name: &str,
    say: F,
) -> io::Result<()>
    requires lengths { (length graph.old ≤ 16384) × (length list.old ≤ 16384) }
    requires callable { (out : _) (graph : _) (list : _) → F.pre say out graph list }
{
    fill(graph, 0xA500_0000);
    fill(list, 0x5A00_0000);
    say(out, graph, list)?;
    let of_graph = digest(&graph[..]);
    let of_list = digest(&list[..]);
    write!(out, " GRAPH {of_graph} {name} {of_list}")
}

// The same, with lent lists of these lengths.
fn with_lengths<W: Write, F: FnOnce(&mut W, &mut [u32], &mut [u32]) -> io::Result<()>>(
    out: &mut W,
    graph_words: usize,
    list_words: usize,
    name: &str,
    say: F,
) -> io::Result<()>
    requires { (out : _) (graph : _) (list : _) → F.pre say out graph list }
{
    if graph_words > 16384 || list_words > 16384 {
        return Ok(());
    }
    let mut graph = little::space();
    let mut list = little::space();
    with_lists(
        out,
        &mut graph[..graph_words],
        &mut list[..list_words],
        name,
        say,
    )
}

// The line of a vector, by the number of its call. Findings has its list where Judge has the path.
fn line<W: Write>(
    out: &mut W,
    call: u32,
    k: usize,
    program: &[u32],
    lemmas: &[u32],
    graph_words: usize,
    path_words: usize,
) -> io::Result<()> {
    match call {
        3 => asked(out, ask::ask(program, lemmas, k))?,
        4 => with_lengths(out, graph_words, path_words, "PATH", |out, graph, path| {
            judged(out, judge::judge(program, lemmas, graph, path))
        })?,
        5 => with_lengths(out, graph_words, path_words, "LIST", |out, graph, list| {
            listed(out, findings::findings(program, lemmas, graph, list))
        })?,
        _ => write!(out, "NO SUCH CALL")?,
    }
    writeln!(out)
}

// A vector without its count of words.
fn vector<W: Write>(out: &mut W, words: &[u32]) -> io::Result<()> {
    let Some((head, rest)) = words.split_at_checked(6) else {
        return Ok(());
    };
    let Some((program, lemmas)) = rest.split_at_checked(head[2] as usize) else {
        return Ok(());
    };
    if lemmas.len() != head[3] as usize {
        return Ok(());
    }
    line(
        out,
        head[0],
        head[1] as usize,
        program,
        lemmas,
        head[4] as usize,
        head[5] as usize,
    )
}

// The vector whose n words are the bytes.
fn on_bytes<W: Write>(out: &mut W, b: &[u8], n: usize) -> io::Result<()>
    requires { (n * 4 ≤ length b.now) × (n ≤ 16384) }
{
    let mut space = little::space();
    little::to_words(b, &mut space, n);
    vector(out, &space[..n])
}

// The count of words that comes next, if it does.
fn next_count<R: Read>(input: &mut R) -> Option<usize> {
    let mut b = [0u8; 4];
    input.read_exact(&mut b).ok()?;
    Some(u32::from_le_bytes(b) as usize)
}

// The vector of n words whose bytes come next, in room for just these. Was it there?
fn read_vector<R: Read, W: Write>(
    input: &mut R,
    out: &mut W,
    b: &mut [u8],
    n: usize,
) -> io::Result<bool>
    requires { (n * 4 ≤ length b.old) × (n ≤ 16384) }
{
    if input.read_exact(b).is_err() {
        return Ok(false);
    }
    on_bytes(out, b, n)?;
    Ok(true)
}

// The next vector. Was there one?
fn next<R: Read, W: Write>(input: &mut R, out: &mut W) -> io::Result<bool> {
    let Some(n @ 1..=16384) = next_count(input) else {
        return Ok(false);
    };
    let mut room = [0u8; 65536];
    read_vector(input, out, &mut room[..n * 4], n)
}

// At most 4,096 vectors.
fn main(rt: HostRuntime) -> io::Result<()> {
    let mut input = rt.stdin();
    let mut out = rt.stdout();
    for _ in 0..4096 {
        if !next(&mut input, &mut out)? {
            break;
        }
    }
    Ok(())
}
