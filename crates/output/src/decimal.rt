// A number in decimal. `write!` would ask that each sink is a `fmt::Write` as well, which stops with an error where a text does not fit;
// a sink drops what does not fit and goes on.
#![tactic(auto)]

ghost use Rattle.std.specs.Prelude.{◌≡◌, length};
ghost use Rattle.definitions.specs.Text.{decimal};
ghost use Rattle.output.specs.LeastDigits.{LeastDigits};

use crate::sink::Sink;

// The largest number has as many digits.
const MOST_DIGITS: usize = 20;

// How many digits a number has: the least count that holds it, and 1 for 0.
fn digit_count(n: u64) -> usize
    ensures { LeastDigits n result }
{
    n.max(1).ilog10() as usize + 1
}

// Stores the digits of a number, from the last one back, each in its final position.
// By index: after a `for` over `out.iter_mut().rev()` a proof knows which places were handed out, and not what was stored in them.
fn store_digits(out: &mut [u8], n: u64)
    requires { LeastDigits n (length out.old) }
    ensures { out.new ≡ decimal n }
{
    let mut rest = n;
    for i in (0..out.len()).rev() {
        out[i] = b'0' + (rest % 10) as u8;
        rest /= 10;
    }
}

// The digits of a number.
pub fn put_decimal<S: Sink<u8>>(sink: &mut S, n: u64)
    ensures { S.puts sink.old (decimal n) sink.new }
{
    let mut digits = [0; MOST_DIGITS];
    let text = &mut digits[..digit_count(n)];
    store_digits(text, n);
    sink.put_all(text);
}
