// The fields of one line, and what it says. What they mean stands in specs/ of `laws` and `plan`.
#![tactic(auto)]

ghost use Rattle.std.specs.Prelude.{◌≡◌, ◌+◌, length, take, drop};
ghost use Rattle.laws.specs.Choice.{when};
ghost use Rattle.laws.specs.Fields.{before, after, count};
ghost use Rattle.plan.specs.Line.{number_at};
ghost use Rattle.text_lines.specs.Code as code;
ghost use Rattle.text_lines.specs.Said.{said_of};

use plan::{Kind, TAB};

// Where the first `b` of `s` stands; the length of `s` where there is none.
pub fn cut(s: &[u8], b: u8) -> usize
    ensures { result ≡ length (before b s.now) }
{
    s.iter().position(|x| *x == b).unwrap_or(s.len())
}

// The first n bytes, all of them where there are fewer.
fn upto(s: &[u8], n: usize) -> &[u8]
    ensures { result.now ≡ take n s.now }
{
    &s[..n.min(s.len())]
}

// The bytes after the n-th, none where there are no more.
fn past(s: &[u8], n: usize) -> &[u8]
    ensures { result.now ≡ drop (n + 1) s.now }
{
    if n < s.len() { &s[n + 1..] } else { &s[..0] }
}

// What stands before the first `b`.
fn head(s: &[u8], b: u8) -> &[u8]
    ensures { result.now ≡ before b s.now }
{
    let n = cut(s, b);
    upto(s, n)
}

// What stands after the first `b`.
fn tail(s: &[u8], b: u8) -> &[u8]
    ensures { result.now ≡ after b s.now }
{
    let n = cut(s, b);
    past(s, n)
}

// How many bytes of `s` are `b`.
fn tally(s: &[u8], b: u8) -> usize
    ensures { result ≡ count b s.now }
{
    let mut n = 0;
    for x in s {
        if *x == b {
            n += 1;
        }
    }
    n
}

// What a line says: its kind, and its numbers from left to right, 0 where there are fewer.
#[derive(Clone, Copy)]
pub struct Said {
    pub found: Option<Kind>,
    pub a: u64,
    pub b: u64,
    pub c: u64,
    pub d: u64,
    pub e: u64,
}

// How many numbers the line has.
fn size_in(found: Option<Kind>) -> u64
    ensures { result ≡ code.size_in found }
{
    match found {
        Some(k) => text_written::size_of(k),
        None => 0,
    }
}

// The number of field k where it is there, else 0.
fn number_if(on: bool, s: &[u8], k: u8) -> u64
    ensures { result ≡ when on (number_at k s.now) }
{
    if on { text_numbers::number(s, k) } else { 0 }
}

// One of two fields.
fn pick<'a>(ok: bool, s: &'a [u8], t: &'a [u8]) -> &'a [u8]
    ensures { result.now ≡ code.pick_of ok s.now t.now }
{
    if ok { s } else { t }
}

// The field of a line's second number: the third, or the fourth where a letter stands between.
fn place(later: bool) -> u8
    ensures { result ≡ code.place_of later }
{
    if later { 4 } else { 3 }
}

// What is said by a line with c tabs and n numbers, of the fields after its word.
fn said_by<'a>(
    c: usize,
    n: u64,
    found: Option<Kind>,
    x: &[u8],
    y: &'a [u8],
    z: &'a [u8],
    p: &[u8],
    q: &[u8],
) -> Said
    ensures { result ≡ code.said_by c n found x.now y.now z.now p.now q.now }
{
    let later = (c == 3) & (n == 2);
    let second = pick(later, z, y);
    Said {
        found: found,
        a: number_if(0 < n, x, 2),
        b: number_if(1 < n, second, place(later)),
        c: number_if(2 < n, z, 4),
        d: number_if(3 < n, p, 5),
        e: number_if(4 < n, q, 6),
    }
}

// The same, of the fields x, y and what follows them.
fn said_fields<'a>(c: usize, found: Option<Kind>, x: &[u8], y: &'a [u8], v: &'a [u8]) -> Said
    ensures { result ≡ code.said_fields c found x.now y.now v.now }
{
    let n = cut(v, TAB);
    let z = upto(v, n);
    let u = past(v, n);
    let p = head(u, TAB);
    let t = tail(u, TAB);
    let q = head(t, TAB);
    said_by(c, size_in(found), found, x, y, z, p, q)
}

// The same, of the first field and what follows it.
fn said_after(c: usize, w: &[u8], t: &[u8]) -> Said
    ensures { result ≡ code.said_after c w.now t.now }
{
    let n = cut(t, TAB);
    let x = upto(t, n);
    let u = past(t, n);
    let m = cut(u, TAB);
    let y = upto(u, m);
    let v = past(u, m);
    said_fields(c, text_words::kind_at(c, w, x, y), x, y, v)
}

// What a line says.
pub fn said_of(line: &[u8]) -> Said
    ensures { result ≡ said_of line.now }
{
    let n = cut(line, TAB);
    let w = upto(line, n);
    let t = past(line, n);
    said_after(tally(line, TAB), w, t)
}
