// The rack's arithmetic, in numbers of sixteen bits.
#![tactic(auto)]

ghost use Rattle.std.specs.Prelude.{◌≡◌, map};
ghost use Rattle.sixteen.specs.Sixteen.{cut, wrapped_product, wrapped_dot, wrapped_value};

use rows::Row;

// The lowest sixteen bits of a number.
fn cut(x: i64) -> u16
    ensures { result ≡ cut x }
{
    x.rem_euclid(65536) as u16
}

// The product of two numbers, wrapped: a function of its own.
fn product(a: u16, b: u16) -> u16
    ensures { result ≡ wrapped_product a b }
{
    a.wrapping_mul(b)
}

// Coefficients times held variables, each product added to the sum so far.
fn products(coef: [i64; 8], held: [u16; 8]) -> u16
    ensures { result ≡ wrapped_dot 0 coef held }
{
    let mut sum = 0u16;
    for (c, x) in coef.iter().zip(&held) {
        sum = sum.wrapping_add(product(cut(*c), *x));
    }
    sum
}

// What a row gives at held variables, read as two's complement.
fn value(row: Row, held: [u16; 8]) -> i64
    ensures { result ≡ wrapped_value row held }
{
    let n = products(row.coef, held).wrapping_add(cut(row.constant));
    i64::from(n.cast_signed())
}

// What each of eight rows gives.
pub fn values(rows: [Row; 8], held: [u16; 8]) -> [i64; 8]
    ensures { result ≡ map (λ row. wrapped_value row held) rows }
{
    rows.map(|row| value(row, held))
}

// Eight variables as the rack holds them.
pub fn hold(x: [i64; 8]) -> [u16; 8]
    ensures { result ≡ map cut x }
{
    x.map(cut)
}
