// Test vectors. Standard input, at most 65,536 bytes, is little-endian words: for each vector a call, a number k, a count n and n words.
// A vector of Step or of the rack's step goes on with a count m and m words, the state's values in two's complement.
// Each vector has one line on standard output. Input that breaks off inside a vector ends the run there.
#![tactic(auto)]

ghost use Rattle.std.specs.Prelude.{ℕ, ◌<◌, ◌≤◌, IfSome, length};

use programs::Counts;
use runs::Stepped;
use std::fmt::Display;
use std::io;
use std::io::{Read, Write};
use words::Refusal;

// A vector: the call, its number, its words and those of the state, of which only the two steps have any.
#[derive(Clone, Copy)]
struct Vector<'a> {
    call: u32,
    k: usize,
    words: &'a [u32],
    state: &'a [u32],
}

fn refused<W: Write>(out: &mut W, r: Refusal) -> io::Result<()> {
    write!(out, "REFUSED {} AT {}", r.number(), r.value())
}

fn counts<W: Write>(out: &mut W, c: Counts) -> io::Result<()> {
    write!(
        out,
        "COUNTS {} {} {} {} {}",
        c.variables, c.start_rows, c.predicates, c.actions, c.forbidden
    )
}

// Check.
fn check<W: Write>(out: &mut W, words: &[u32]) -> io::Result<()> {
    match programs::check(words) {
        Ok(c) => counts(out, c),
        Err(why) => refused(out, why),
    }
}

// A name, and each number after a space.
fn list<W: Write, T: Display>(out: &mut W, name: &str, numbers: &[T]) -> io::Result<()> {
    write!(out, "{name}")?;
    for x in numbers {
        write!(out, " {x}")?;
    }
    Ok(())
}

// The numbers that the words are in two's complement, to the front of a state.
fn fill(state: &mut [i32], words: &[u32])
    requires { length words.now ≤ length state.old }
{
    for (place, word) in state.iter_mut().zip(words) {
        *place = word.cast_signed();
    }
}

fn stepped<W: Write>(out: &mut W, s: Result<Stepped, Refusal>) -> io::Result<()> {
    match s {
        Ok(Stepped::Moved) => write!(out, "MOVED"),
        Ok(Stepped::NotEnabled(failing)) => {
            write!(out, "NOT ENABLED {} {}", failing.row, failing.value)
        }
        Ok(Stepped::RunsOff(v)) => write!(out, "RUNS OFF {v}"),
        Err(why) => refused(out, why),
    }
}

// Step or the rack's step, on the values of the state's words, in room for sixteen; and the values at exit.
fn step<W: Write, F: FnOnce(&[u32], usize, &mut [i32]) -> Result<Stepped, Refusal>>(
    out: &mut W,
    v: Vector<'_>,
    act: F,
) -> io::Result<()>
    requires { (words : _) (k : ℕ) (state : _) → F.pre act words k state }
{
    let mut room = [0i32; 16];
    let Some(values) = room.get_mut(..v.state.len()) else {
        return write!(out, "NO SUCH CALL");
    };
    fill(values, v.state);
    let s = act(v.words, v.k, values);
    stepped(out, s)?;
    list(out, " LEFT", values)
}

// The line of one vector, by the number of its call.
fn answer<W: Write>(out: &mut W, v: Vector<'_>) -> io::Result<()> {
    match v.call {
        0 => check(out, v.words)?,
        1 => list(out, "PART", programs::action_part(v.words, v.k))?,
        2 => step(out, v, runs::step)?,
        3 => step(out, v, rack::rack_step)?,
        _ => write!(out, "NO SUCH CALL")?,
    }
    writeln!(out)
}

// A count and as many words at the front, and what lies behind them. None where they break off.
fn counted(words: &[u32]) -> Option<(&[u32], &[u32])>
    ensures { IfSome result (λ p. length p.1.now < length words.now) }
{
    let (n, rest) = words.split_first()?;
    rest.split_at_checked(*n as usize)
}

// The vector at the front, and what lies behind it. None where there is none or it breaks off.
fn first(words: &[u32]) -> Option<(Vector<'_>, &[u32])>
    ensures { IfSome result (λ p. length p.1.now < length words.now) }
{
    let (call, rest) = words.split_first()?;
    let (k, rest) = rest.split_first()?;
    let (program, rest) = counted(rest)?;
    let (state, rest) = if 2 <= *call {
        counted(rest)?
    } else {
        (&rest[..0], rest)
    };
    let v = Vector {
        call: *call,
        k: *k as usize,
        words: program,
        state,
    };
    Some((v, rest))
}

// Each vector in turn.
fn run<W: Write>(out: &mut W, words: &[u32]) -> io::Result<()> {
    let mut rest = words;
    while let Some((v, behind)) = first(rest) {
        answer(out, v)?;
        rest = behind;
    }
    Ok(())
}

// The words of the bytes; one to three bytes at the end are no word.
fn on_bytes<W: Write>(out: &mut W, b: &[u8]) -> io::Result<()> {
    let n = b.len() / 4;
    if n <= 16384 {
        let mut space = little::space();
        little::to_words(b, &mut space, n);
        run(out, &space[..n])?;
    }
    Ok(())
}

// Reads until b is full, or until there is nothing more or a read fails. How many bytes came?
fn read_full<R: Read>(input: &mut R, b: &mut [u8]) -> usize
    ensures { result ≤ length b.new }
{
    let mut done: usize = 0;
    // no `for`: a read says how far it came
    while done < b.len() {
        let n = input.read(&mut b[done..]).unwrap_or(0);
        if n == 0 {
            break;
        }
        done += n;
    }
    done
}

fn main(rt: HostRuntime) -> io::Result<()> {
    let mut bytes = [0u8; 65536];
    let n = read_full(&mut rt.stdin(), &mut bytes);
    on_bytes(&mut rt.stdout(), &bytes[..n])
}
