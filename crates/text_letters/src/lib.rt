// Bytes, words and numbers, written at the start of a lent buffer, and their sizes. The texts are those of specs/Tabbed.
#![tactic(auto)]

ghost use Rattle.std.specs.Prelude.{◌≡◌, [], ◌∷◌, ◌++◌, ◌+◌, ◌≤◌, ◌%◌, length};
ghost use Rattle.std.specs.Prelude.{if◌then◌else◌};
ghost use Rattle.laws.specs.Decimal.{decimal};
ghost use Rattle.text_letters.specs.Wrote.{Wrote, Sized};
ghost use Rattle.text_letters.specs.Tabbed.{tabbed, rest, number_or};

// One of two words.
pub fn pick<'a>(c: bool, a: &'a [u8], b: &'a [u8]) -> &'a [u8]
    ensures { result.now ≡ if c then a.now else b.now }
{
    if c { a } else { b }
}

// The last digit.
fn digit(n: u64) -> u8
    ensures { result ≡ 48 + n % 10 }
{
    48 + (n % 10) as u8
}

// Writes one byte.
fn put_byte(out: &mut [u8], b: u8) -> usize
    requires { 1 ≤ length out.old }
    ensures { Wrote (b ∷ []) out.old out.new result }
{
    out[0] = b;
    1
}

// Copies the bytes of w.
pub fn put(out: &mut [u8], w: &[u8]) -> usize
    requires { length w.now ≤ length out.old }
    ensures { Wrote w.now out.old out.new result }
{
    let n = w.len();
    out[..n].copy_from_slice(w);
    n
}

// Writes n in decimal, digit after digit.
fn put_digits(out: &mut [u8], n: u64) -> usize
    requires { length (decimal n) ≤ length out.old }
    ensures { Wrote (decimal n) out.old out.new result }
{
    let d = digit(n);
    if n < 10 {
        return put_byte(out, d);
    }
    let k = put_digits(out, n / 10);
    k + put_byte(&mut out[k..], d)
}

// Writes n in decimal: up to two digits at once.
pub fn put_number(out: &mut [u8], n: u64) -> usize
    requires { length (decimal n) ≤ length out.old }
    ensures { Wrote (decimal n) out.old out.new result }
{
    let d = digit(n);
    if n < 10 {
        return put_byte(out, d);
    }
    if n < 100 {
        let k = put_byte(out, digit(n / 10));
        return k + put_byte(&mut out[k..], d);
    }
    put_digits(out, n)
}

// Writes a number, or the word that stands where it is lacking.
fn put_choice(out: &mut [u8], c: bool, n: u64, w: &[u8]) -> usize
    requires { length (number_or c n w.now) ≤ length out.old }
    ensures { Wrote (number_or c n w.now) out.old out.new result }
{
    if c {
        return put_number(out, n);
    }
    put(out, w)
}

// Writes a tab and a number, or a word where it is lacking.
fn tab_choice(out: &mut [u8], c: bool, n: u64, w: &[u8]) -> usize
    requires { length (tabbed (number_or c n w.now)) ≤ length out.old }
    ensures { Wrote (tabbed (number_or c n w.now)) out.old out.new result }
{
    let k = put_byte(out, 9);
    k + put_choice(&mut out[k..], c, n, w)
}

// Writes a tab and a number.
pub fn tab_number(out: &mut [u8], n: u64) -> usize
    requires { length (tabbed (decimal n)) ≤ length out.old }
    ensures { Wrote (tabbed (decimal n)) out.old out.new result }
{
    tab_choice(out, true, n, b"")
}

// Writes a tab and a word.
pub fn tab_word(out: &mut [u8], w: &[u8]) -> usize
    requires { length (tabbed w.now) ≤ length out.old }
    ensures { Wrote (tabbed w.now) out.old out.new result }
{
    tab_choice(out, false, 0, w)
}

// Writes a word, a tab and a number.
pub fn word_one(out: &mut [u8], w: &[u8], v: u64) -> usize
    requires { length (w.now ++ tabbed (decimal v)) ≤ length out.old }
    ensures { Wrote (w.now ++ tabbed (decimal v)) out.old out.new result }
{
    let k = put(out, w);
    k + tab_number(&mut out[k..], v)
}

// Writes a word and two numbers, each after a tab.
pub fn word_two(out: &mut [u8], w: &[u8], v: u64, n: u64) -> usize
    requires { length ((w.now ++ tabbed (decimal v)) ++ tabbed (decimal n)) ≤ length out.old }
    ensures { Wrote ((w.now ++ tabbed (decimal v)) ++ tabbed (decimal n)) out.old out.new result }
{
    let k = word_one(out, w, v);
    k + tab_number(&mut out[k..], n)
}

// Writes a line's last field, a number.
pub fn last_rest(out: &mut [u8], n: u64) -> usize
    requires { length (rest (decimal n ∷ [])) ≤ length out.old }
    ensures { Wrote (rest (decimal n ∷ [])) out.old out.new result }
{
    let k = tab_number(out, n);
    k + put_byte(&mut out[k..], 10)
}

// Writes a line's last two fields: a number, or a word where it is lacking; and a number.
pub fn ticks_rest(out: &mut [u8], c: bool, t: u64, w: &[u8], n: u64) -> usize
    requires { length (rest (number_or c t w.now ∷ decimal n ∷ [])) ≤ length out.old }
    ensures { Wrote (rest (number_or c t w.now ∷ decimal n ∷ [])) out.old out.new result }
{
    let k = tab_choice(out, c, t, w);
    k + last_rest(&mut out[k..], n)
}

// The number of digits of n.
pub fn number_size(n: u64) -> usize
    ensures { Sized (decimal n) 20 result }
{
    if n < 10 {
        return 1;
    }
    number_size(n / 10) + 1
}

// The size of a number, or of the word that stands where it is lacking.
fn choice_size(c: bool, n: u64, w: &[u8]) -> usize
    requires { length w.now ≤ 20 }
    ensures { Sized (number_or c n w.now) 20 result }
{
    if c {
        return number_size(n);
    }
    w.len()
}

// The size of a line's last two fields.
pub fn ticks_size(c: bool, t: u64, w: &[u8], n: u64) -> usize
    requires { length w.now ≤ 20 }
    ensures { Sized (rest (number_or c t w.now ∷ decimal n ∷ [])) 43 result }
{
    let x = choice_size(c, t, w);
    let y = number_size(n);
    x + (y + 1 + 1) + 1
}
