// Text and decimal numbers, written at a place of a lent list of bytes.
#![tactic(auto)]

ghost use Rattle.std.specs.Prelude.{◌+◌, ◌≤◌, length};
ghost use Rattle.lines.specs.Text.{decimal, field, line};
ghost use Rattle.lines.specs.Puts.{Put};

// The text at the place; answers the place behind it.
pub fn put_bytes(out: &mut [u8], at: usize, text: &[u8]) -> usize
    requires { at + length text.now ≤ length out.old }
    ensures { Put out.old at text.now out.new result }
{
    let behind = at + text.len();
    out[at..behind].copy_from_slice(text);
    behind
}

// The number in decimal, at the place.
pub fn put_number(out: &mut [u8], at: usize, n: usize) -> usize
    requires { at + length (decimal n) ≤ length out.old }
    ensures { Put out.old at (decimal n) out.new result }
{
    let mut text = [0; 20];
    let k = io::decimal(n as u64, &mut text);
    put_bytes(out, at, &text[..k])
}

// The text, then the number.
pub fn put_field(out: &mut [u8], at: usize, text: &[u8], n: usize) -> usize
    requires { at + length (field text.now n) ≤ length out.old }
    ensures { Put out.old at (field text.now n) out.new result }
{
    let next = put_bytes(out, at, text);
    put_number(out, next, n)
}

// A line of two fields, at the front.
pub fn put_line(out: &mut [u8], first: &[u8], n: usize, second: &[u8], m: usize) -> usize
    requires { length (line first.now n second.now m) ≤ length out.old }
    ensures { Put out.old 0 (line first.now n second.now m) out.new result }
{
    let at = put_field(out, 0, first, n);
    let next = put_field(out, at, second, m);
    put_bytes(out, next, b"\n")
}
