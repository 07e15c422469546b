// When a stream that is read or written by many calls is whole, is to be tried again, or is broken. Nothing here reads or writes.
#![tactic(auto)]

ghost use Rattle.std.specs.Prelude.{◌≡◌};
ghost use Rattle.streams.specs.Streams.{answer_of, at_nothing, passing, after_moved, after_failed};
ghost use Rattle.streams.specs.Streams.{next as next_of};

pub const TRIES: usize = 500;

#[derive(Clone, Copy)]
pub enum Way {
    Read,
    Write,
}

// Where a stream stands: so many bytes are done and so many calls were told to come again; all its bytes are there; or it is given up.
#[derive(Clone, Copy)]
pub enum Progress {
    Going(usize, usize),
    Whole(usize),
    Broken,
}

// What a call answered that gave `got`: the bytes that it moved, or its error's number. errno counts only where `got` is negative.
pub fn answered(got: isize, errno: i32) -> Result<usize, i32>
    ensures { result ≡ answer_of got errno }
{
    usize::try_from(got).map_err(|_| errno)
}

// A read or a write that was interrupted, or that would have had to wait.
fn passes(errno: i32) -> bool
    ensures { result ≡ passing errno }
{
    matches!(errno, 4 | 11)
}

fn at_nothing(way: Way, done: usize) -> Progress
    ensures { result ≡ at_nothing way done }
{
    match way {
        Way::Read => Progress::Whole(done),
        Way::Write => Progress::Broken,
    }
}

#[tactic(auto, using(std::proofs::lemmas::Bool::Decides::nat_tests), unfolding(crate::specs::Streams::after_moved))]
fn after_moved(way: Way, room: usize, done: usize, tries: usize, n: usize) -> Progress
    ensures { result ≡ after_moved way room done tries n }
{
    if done > room || n > room - done {
        return Progress::Broken;
    }
    if n == room - done {
        return Progress::Whole(room);
    }
    if n == 0 {
        return at_nothing(way, done);
    }
    Progress::Going(done + n, tries)
}

#[tactic(auto, unfolding(crate::specs::Streams::after_failed))]
fn after_failed(done: usize, tries: usize, errno: i32) -> Progress
    ensures { result ≡ after_failed done tries errno }
{
    if passes(errno) && tries < TRIES {
        Progress::Going(done, tries + 1)
    } else {
        Progress::Broken
    }
}

// Where the stream stands after one answer more: the bytes that a call moved, or its error's number. A failed call never ends it as whole.
#[tactic(auto, unfolding(crate::specs::Streams::next))]
pub fn next(way: Way, room: usize, progress: Progress, answer: Result<usize, i32>) -> Progress
    ensures { result ≡ next_of way room progress answer }
{
    let Progress::Going(done, tries) = progress else {
        return Progress::Broken;
    };
    match answer {
        Ok(n) => after_moved(way, room, done, tries, n),
        Err(errno) => after_failed(done, tries, errno),
    }
}
