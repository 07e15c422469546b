// The operator's program: the bytes of a show on standard input, its line or lines on standard output. What the lines say is the contract of
// `report`, whether the input was read whole that of `streams`. It reads one byte more than a show may have, and of a longer input no more than
// that. Where reading or writing fails, it says so on standard error, and no verdict is printed on a part of the input.
#![tactic(auto)]

ghost use Rattle.std.specs.Prelude.{◌≡◌, ◌≤◌, IfSome, length};
ghost use Rattle.operator.specs.Program.{told, AllCame, lines_after, Leads, WentOut};

use std::io::{ErrorKind, Read, Write};
use std::process::ExitCode;
use std::time::{Clock, Duration};
use std::{io, thread};
use streams::{Progress, Way};

// Room for 65,537 bytes. The contract gives only the length, so that no caller sees a list of as many zeros.
fn room() -> [u8; 65537]
    ensures { 65537 ≡ length result }
{
    [0; 65537]
}

// Room for the lines.
fn lines_room() -> [u8; 4096]
    ensures { 4096 ≡ length result }
{
    [0; 4096]
}

// Waits for 10 ms, where that is wanted.
fn pause(clock: &impl Clock, wanted: bool) {
    if wanted {
        thread::sleep(clock, Duration::from_millis(10));
    }
}

// What a call answered: the bytes that it moved, or the error's number.
fn answer(got: io::Result<usize>) -> Result<usize, i32>
    ensures { result ≡ told got }
{
    got.or_else(|error| streams::answered(-1, error.raw_os_error().unwrap_or(0)))
}

// The reason alone, without the error's number that std writes behind it.
fn reason(text: &str) -> &str {
    text.split_once(" (os error ")
        .map_or(text, |(before, _)| before)
}

// Says on standard error what could not be done and why.
fn fail(rt: &(impl Eprint + Alloc), what: &str, error: io::Error) {
    let _ = match format!(in rt.alloc(); "{error}") {
        Ok(text) => rt.eprintln(format_args!("bulanevior: {what}: {}", reason(text.as_str()))),
        Err(_) => rt.eprintln(format_args!("bulanevior: {what}: {error}")),
    };
}

// Says why standard input could not be read.
fn tell_unread(rt: &(impl Eprint + Alloc), got: io::Result<usize>) {
    if let Err(error) = got {
        fail(rt, "cannot read standard input", error);
    }
}

// Reads the input to its end, or until the bytes are full, and answers how many came. Where that fails, it says why.
fn read_whole<R: Read>(
    rt: &(impl Clock + Eprint + Alloc),
    input: &mut R,
    bytes: &mut [u8],
) -> Option<usize>
    ensures room { IfSome result (λ n. n ≤ length bytes.new) }
    ensures came { AllCame result (R.remaining input.old) (R.remaining input.new) bytes.new }
{
    let room = bytes.len();
    let mut done: usize = 0;
    let mut tries: usize = 0;
    // no `for`: each call says where the stream stands
    loop {
        let got = input.read(&mut bytes[done..]);
        match streams::next(Way::Read, room, Progress::Going(done, tries), answer(got)) {
            Progress::Going(more, again) => {
                pause(rt, again > tries);
                done = more;
                tries = again;
            }
            Progress::Whole(n) => return Some(n),
            Progress::Broken => {
                tell_unread(rt, got);
                return None;
            }
        }
    }
}

// The lines for the bytes that were read; none where reading did not come to the end of the input.
fn put_lines(end: Option<usize>, bytes: &[u8], lines: &mut [u8]) -> usize
    requires { IfSome end (λ n. n ≤ length bytes.now) }
    ensures { Leads (lines_after end bytes.now lines.old) result lines.old lines.new }
{
    match end {
        Some(n) => report::report(&bytes[..n], lines),
        None => 0,
    }
}

// Says why the lines could not be written; `got` is what the last call gave, before which `done` bytes had gone out.
fn tell_unwritten(rt: &(impl Eprint + Alloc), got: io::Result<usize>, done: usize) {
    match got {
        Ok(_) => {
            let _ = rt.eprintln(
                "bulanevior: the line on standard output is not whole: it takes no byte",
            );
        }
        Err(error) if done == 0 => fail(rt, "cannot write to standard output", error),
        Err(error) => fail(rt, "the line on standard output is not whole", error),
    }
}

// Why the lines could not be written.
fn unwritten(got: io::Result<usize>) -> io::Error {
    got.err().unwrap_or_else(|| io::Error::new(ErrorKind::WriteZero, "it takes no byte"))
}

// Writes the lines to the output, if there are any. Where that fails, it says why.
fn write_whole<W: Write>(
    rt: &(impl Clock + Eprint + Alloc),
    output: &mut W,
    lines: &[u8],
) -> io::Result<()>
    ensures { WentOut result (W.contents output.old) (W.contents output.new) lines.now }
{
    let room = lines.len();
    if room == 0 {
        return Ok(());
    }
    let mut done: usize = 0;
    let mut tries: usize = 0;
    // no `for`, likewise
    loop {
        let got = output.write(&lines[done..]);
        match streams::next(Way::Write, room, Progress::Going(done, tries), answer(got)) {
            Progress::Going(more, again) => {
                pause(rt, again > tries);
                done = more;
                tries = again;
            }
            Progress::Whole(_) => return Ok(()),
            Progress::Broken => {
                tell_unwritten(rt, got, done);
                return Err(unwritten(got));
            }
        }
    }
}

// With what the program ends: where nobody reads its output, with what a shell says of a program that SIGPIPE ended, and else with 0.
fn status(ended: io::Result<()>) -> u8 {
    match ended {
        Err(error) if error.kind() == ErrorKind::BrokenPipe => 141,
        _ => 0,
    }
}

fn main(rt: HostRuntime) -> ExitCode {
    let mut bytes = room();
    let end = read_whole(&rt, &mut rt.stdin(), &mut bytes);
    let mut lines = lines_room();
    let m = put_lines(end, &bytes, &mut lines);
    ExitCode::from(status(write_whole(&rt, &mut rt.stdout(), &lines[..m])))
}
