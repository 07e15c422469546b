// Words of 32 bits, their fields, and the refusals.
#![tactic(auto)]

ghost use Rattle.std.specs.Prelude.{◌≡◌, ◌+◌, ◌*◌, ◌<◌, ◌≤◌, ◌^◌, ◌/◌, ◌%◌};
ghost use Rattle.words.specs.Words.{bits, signed, signed_by, kind_of, payload, word, literals_of};
ghost use Rattle.words.specs.Making.{literals};
ghost use Rattle.words.specs.Refusals.{number, value};

// The most actions of a program.
pub const ACTIONS: usize = 16;

// The source of a lemma that stands for the start.
pub const START: u32 = 255;

// The most nodes of a graph.
pub const NODES: usize = 512;

// How many payloads there are: a payload has 28 bits.
const PAYLOADS: u32 = 268435456;

// The kind of a word, its bits 31 to 28.
#[derive(Clone, Copy, PartialEq, Eq)]
pub struct Kind(pub u32);

impl Kind {
    pub const DISTANCE: Kind = Kind(0);

    pub const VAR: Kind = Kind(1);

    pub const ROW: Kind = Kind(2);

    pub const TERM: Kind = Kind(3);

    pub const INIT: Kind = Kind(4);

    pub const PRED: Kind = Kind(5);

    pub const ACTION: Kind = Kind(6);

    pub const SET: Kind = Kind(7);

    pub const SETS: Kind = Kind(8);

    pub const LEMMA: Kind = Kind(9);

    pub const MULT: Kind = Kind(10);

    pub const ORIGIN: Kind = Kind(11);

    pub const EDGE: Kind = Kind(12);

    pub const STEP: Kind = Kind(13);

    pub const FINDING: Kind = Kind(14);

    pub const END: Kind = Kind(15);

    // The kind of a word.
    pub fn of(w: u32) -> Kind
        ensures { result.0 ≡ kind_of w }
    {
        Kind(w / PAYLOADS)
    }

    // The word of this kind and a payload.
    pub fn word(self, p: u32) -> u32
        requires { (self.0 < 16) × (p < 2 ^ 28) }
        ensures { result ≡ word self.0 p }
    {
        self.0 * PAYLOADS + p
    }
}

// The payload of an EDGE word that names no successor: all 28 bits ones.
pub const NO_NODE: u32 = PAYLOADS - 1;

// The payload of the ORIGIN word of node 0: bits 12 to 0 all ones.
pub const NO_PARENT: u32 = 8191;

// n read in two's complement, where the numbers from `half` on are negative.
pub fn signed_by(n: u32, half: u32) -> i64
    requires { (n < half + half) × (half ≤ 2 ^ 27) }
    ensures { result ≡ signed_by half n }
{
    let x = n as i64;
    if n < half {
        x
    } else {
        let whole = (half + half) as i64;
        x - whole
    }
}

// The low end in a VAR word.
pub fn low_end(w: u32) -> i64
    ensures { result ≡ signed 14 (bits 27 14 w) }
{
    signed_by(w / 16384 % 16384, 8192)
}

// The high end in a VAR word.
pub fn high_end(w: u32) -> i64
    ensures { result ≡ signed 14 (bits 13 0 w) }
{
    signed_by(w % 16384, 8192)
}

// The constant in a ROW word.
pub fn constant(w: u32) -> i64
    ensures { result ≡ signed 28 (payload w) }
{
    signed_by(w % PAYLOADS, PAYLOADS / 2)
}

// The variable in a TERM word.
pub fn variable(w: u32) -> usize
    ensures { result ≡ bits 27 24 w }
{
    (w / 16777216 % 16) as usize
}

// The coefficient in a TERM word.
pub fn coefficient(w: u32) -> i64
    ensures { result ≡ signed 16 (bits 15 0 w) }
{
    signed_by(w % 65536, 32768)
}

// The whole payload as a count or a number.
pub fn count(w: u32) -> usize
    ensures { result ≡ payload w }
{
    (w % PAYLOADS) as usize
}

// The number of guard rows in an ACTION word.
pub fn guards(w: u32) -> usize
    ensures { (result ≡ bits 7 4 w) × (result < 16) }
{
    (w / 16 % 16) as usize
}

// The number of assignments in an ACTION word.
pub fn assignments(w: u32) -> usize
    ensures { result ≡ bits 3 0 w }
{
    (w % 16) as usize
}

// The source in a LEMMA word.
pub fn source(w: u32) -> usize
    ensures { result ≡ bits 27 20 w }
{
    (w / 1048576 % 256) as usize
}

// The goal in a LEMMA word.
pub fn goal(w: u32) -> usize
    ensures { result ≡ bits 19 16 w }
{
    (w / 65536 % 16) as usize
}

// The index in a LEMMA word.
pub fn index(w: u32) -> usize
    ensures { result ≡ bits 7 0 w }
{
    (w % 256) as usize
}

// A set of literals as the payload of SETS: bit p for predicate p known true, bit 14 + p for predicate p known false.
#[derive(Clone, Copy)]
pub struct Literals(pub u32);

impl Literals {
    pub const EMPTY: Literals = Literals(0);

    // The set with these predicates known false and these known true, one bit for each of the 14.
    pub fn new(known_false: u32, known_true: u32) -> Literals
        ensures { result ≡ literals known_false known_true }
    {
        Literals(known_false % 16384 * 16384 + known_true % 16384)
    }

    // The set in a SETS word.
    pub fn of(w: u32) -> Literals
        ensures { result ≡ literals_of w }
    {
        Literals::new(w / 16384 % 16384, w % 16384)
    }
}

// Why a call refuses, with the number that is returned with the refusal.
#[derive(Clone, Copy)]
pub enum Refusal {
    // 1: a lent list is too short; 0 for the graph or the view, 1 for the path.
    Short(usize),
    // 2: a program word is missing, of the wrong kind, after END, or has an unnamed bit; its index.
    Word(usize),
    // 3: one too many, or a count too high; the word's index.
    Limit(usize),
    // 4: a value that is not allowed; the word's index.
    Value(usize),
    // 5: a lemma word that is missing or ill formed; its index.
    Lemma(usize),
    // 6: a 513th lemma; its index.
    Lemmas(usize),
    // 7: a 513th node.
    Nodes,
    // 8: no such action, lemma or node; its number.
    Absent(usize),
    // 9: a state of the wrong length; that length.
    Length(usize),
    // 10: a state value off its range; the lowest such variable.
    State(usize),
    // 11: a lemma's sum leaves 64 bits; the lemma's number.
    Sum(usize),
    // 12: the findings list is too short; how many words are needed.
    Findings(usize),
}

impl Refusal {
    // The refusal's number in the document's table.
    pub fn number(self) -> u32
        ensures { result ≡ number self }
    {
        match self {
            Refusal::Short(_) => 1,
            Refusal::Word(_) => 2,
            Refusal::Limit(_) => 3,
            Refusal::Value(_) => 4,
            Refusal::Lemma(_) => 5,
            Refusal::Lemmas(_) => 6,
            Refusal::Nodes => 7,
            Refusal::Absent(_) => 8,
            Refusal::Length(_) => 9,
            Refusal::State(_) => 10,
            Refusal::Sum(_) => 11,
            Refusal::Findings(_) => 12,
        }
    }

    // The number that is returned with the refusal.
    pub fn value(self) -> usize
        ensures { result ≡ value self }
    {
        match self {
            Refusal::Nodes => NODES,
            Refusal::Short(n)
            | Refusal::Word(n)
            | Refusal::Limit(n)
            | Refusal::Value(n)
            | Refusal::Lemma(n)
            | Refusal::Lemmas(n)
            | Refusal::Absent(n)
            | Refusal::Length(n)
            | Refusal::State(n)
            | Refusal::Sum(n)
            | Refusal::Findings(n) => n,
        }
    }
}
