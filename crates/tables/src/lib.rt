// The accepted lemmas of a list, in a table.
#![tactic(auto)]

ghost use Rattle.std.specs.Prelude.{◌≡◌, ◌+◌, ◌*◌, ◌%◌, ◌^◌, ◌≤◌, length};
ghost use Rattle.words.specs.Words.{bits};
ghost use Rattle.lemmas.specs.Sources.{the_program};
ghost use Rattle.gather.specs.Gathering.{place_of};
ghost use Rattle.tables.specs.Tabled.{the_lemmas, Begun, Tabled};

use gather::Entry;
use lemmas::Loaded;
use words::Refusal;

// The entry of the lemma that these words, LEMMA and SETS, begin.
fn entry(w: u32, s: u32) -> Entry
    ensures { result ≡ record { premises = s % 2 ^ 28; key = bits 27 20 w * 64 + place_of (bits 19 16 w) (bits 7 0 w) } }
{
    Entry {
        premises: s % 268435456,
        key: gather::key_of(w / 1048576 % 256, w / 65536 % 16, w % 256),
    }
}

// Each lemma weighed, in order, and its entry written behind those of the accepted ones; it is counted if it is accepted itself. How many are accepted, or the
// refusal of the first lemma whose sum leaves 64 bits.
pub fn tabulate(
    loaded: &Loaded<'_>,
    lemmas: &[u32],
    begins: &[u64],
    entries: &mut [Entry],
) -> Result<usize, Refusal>
    requires { Begun (the_program loaded.now.words.now) lemmas.now begins.now (the_lemmas (the_program loaded.now.words.now) lemmas.now)
        × (512 ≤ length entries.old) }
    ensures { Tabled (the_program loaded.now.words.now) (the_lemmas (the_program loaded.now.words.now) lemmas.now) entries.new result }
{
    let sources = loaded.sources();
    let mut n = 0;
    for (k, begin) in begins.iter().enumerate() {
        let at = *begin as usize;
        let w = reader::word_at(lemmas, at);
        let source = sources[lemmas::slot(words::source(w))];
        let z = ask::weigh(loaded, source, lemmas, at).ok_or(Refusal::Sum(k))?;
        entries[n] = entry(w, reader::word_at(lemmas, at + 1));
        n += usize::from(z < 0);
    }
    Ok(n)
}
