// Words of 32 bits out of bytes, the lowest byte first.
#![tactic(auto)]

ghost use Rattle.std.specs.Prelude.{◌≡◌, ◌++◌, ◌+◌, ◌*◌, ◌<◌, ◌≤◌, length, drop};
ghost use Rattle.little.specs.LittleEndian.{word_at, words_of};

// Room for the words of 65,536 bytes, all zero. The contract gives only the length, so that no caller sees a list of 16,384 zeros.
pub fn space() -> [u32; 16384]
    ensures { 16384 ≡ length result }
{
    [0; 16384]
}

// Word k of the bytes.
fn word_at(b: &[u8], k: usize) -> u32
    requires { k * 4 + 4 ≤ length b.now }
    ensures { result ≡ word_at b.now k }
{
    let at = k * 4;
    u32::from_le_bytes([b[at], b[at + 1], b[at + 2], b[at + 3]])
}

// The first n words of the bytes, to the front of `words`; what lies behind stays.
pub fn to_words(b: &[u8], words: &mut [u32], n: usize)
    requires { (n * 4 ≤ length b.now) × (n ≤ length words.old) }
    ensures { words.new ≡ words_of b.now n ++ drop n words.old }
{
    for k in 0..n {
        words[k] = word_at(b, k);
    }
}
