// The number of a field. What it means stands in specs/ of `laws` and `plan`.
#![tactic(auto)]

ghost use Rattle.std.specs.Prelude.{◌≡◌, ◌≤◌, length};
ghost use Rattle.laws.specs.Decimal.{digit_of, scan, starts};
ghost use Rattle.plan.specs.Line.{number_at};

use plan::BAD;

// The value of a digit; 10 for any other byte.
fn digit_of(x: u8) -> u64
    ensures { result ≡ digit_of x }
{
    if x < 48 {
        return 10;
    }
    if x <= 57 { (x - 48) as u64 } else { 10 }
}

// The digits of `s` as a value; `none` where a byte is no digit.
fn digits(s: &[u8], none: u64) -> u64
    requires { length s.now ≤ 7 }
    ensures { result ≡ scan none 0 s.now }
{
    let mut v: u64 = 0;
    for x in s {
        let d = digit_of(*x);
        if d < 10 {
            v = v * 10 + d;
        } else {
            return none;
        }
    }
    v
}

// Does `s` start as a number does: not empty, and with no leading zero?
fn starts_well(s: &[u8]) -> bool
    ensures { result ≡ starts s.now }
{
    if s.len() == 1 {
        return true;
    }
    if s.len() == 0 {
        return false;
    }
    s[0] != 48
}

// The number that field k says; for one that is not written as it should be, 10,000,000 and k.
pub fn number(s: &[u8], k: u8) -> u64
    ensures { result ≡ number_at k s.now }
{
    let none = BAD + k as u64;
    if s.len() <= 7 {
        if starts_well(s) {
            digits(s, none)
        } else {
            none
        }
    } else {
        none
    }
}
