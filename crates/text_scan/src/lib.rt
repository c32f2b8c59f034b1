// The line reader: a record that refers to the input. What a line is stands in specs/Scan.
#![tactic(auto)]

ghost use Rattle.std.specs.Prelude.{◌≡◌, true, ◌+◌, ◌<◌, ◌≤◌, ◌^◌, drop};
ghost use Rattle.std.specs.Prelude.{if◌then◌else◌};
ghost use Rattle.text_scan.specs.Scan.{line_at, step_at};

use plan::LF;
use text_lines::Said;

// A line: whether an LF ends it, and if none does, whether nothing is left; what it says; and where the next line begins.
#[derive(Clone, Copy)]
pub struct Line {
    pub ended: bool,
    pub empty: bool,
    pub said: Said,
    pub next: usize,
}

// The input, the place where the next line begins, and that line's number.
#[derive(Clone, Copy)]
pub struct LineReader<'a> {
    src: &'a [u8],
    at: usize,
    line: usize,
}

// The bytes from `at` on, none where there are no more.
fn rest(src: &[u8], at: usize) -> &[u8]
    ensures { result.now ≡ drop at src.now }
{
    if at < src.len() {
        &src[at..]
    } else {
        &src[..0]
    }
}

// Where the line after one of k bytes begins; the end where no LF ends that one.
fn next_of(ended: bool, at: usize, k: usize, end: usize) -> usize
    requires { ended ≡ true → at + k + 1 ≤ end }
    ensures { result ≡ (if ended then at + k + 1 else end) }
{
    if ended { at + k + 1 } else { end }
}

// The line that begins at a place.
pub fn line_at(src: &[u8], at: usize) -> Line
    ensures { result ≡ line_at src.now at }
{
    let left = rest(src, at);
    let k = text_lines::cut(left, LF);
    let ended = k < left.len();
    let said = text_lines::said_of(&left[..k]);
    let next = next_of(ended, at, k, src.len());
    Line {
        ended: ended,
        empty: left.len() == 0,
        said: said,
        next: next,
    }
}

// The reader of an input at a place where a line begins, with that line's number.
pub fn placed<'a>(src: &'a [u8], at: usize, line: usize) -> LineReader<'a>
    ensures { (result.src ≡ src.entry) × (result.at ≡ at) × (result.line ≡ line) }
{
    LineReader { src, at, line }
}

// The line that the reader is at.
pub fn next_line<'a>(r: LineReader<'a>) -> Line
    ensures { result ≡ line_at r.entry.src.now r.entry.at }
{
    line_at(r.src, r.at)
}

// The reader at the line after, which begins at `next`.
pub fn moved<'a>(r: LineReader<'a>, next: usize) -> LineReader<'a>
    requires { r.line + 1 < 2 ^ 64 }
    ensures { (result.src ≡ r.entry.src) × (result.at ≡ next) × (result.line ≡ r.entry.line + 1) }
{
    LineReader {
        src: r.src,
        at: next,
        line: r.line + 1,
    }
}

// A line, and where the line after begins, with its number.
#[derive(Clone, Copy)]
pub struct Step {
    pub line: Line,
    pub at: usize,
    pub number: usize,
}

// The step of a line, and of the place and the number of the next.
fn stepped(line: Line, at: usize, number: usize) -> Step
    ensures { result ≡ record { line = line; at = at; number = number } }
{
    Step { line, at, number }
}

// Reads the line at a place, with its number, through a reader of the input: that line, and the next place and number.
pub fn read_line(src: &[u8], at: usize, line: usize) -> Step
    requires { line + 1 < 2 ^ 64 }
    ensures { result ≡ step_at src.now at line }
{
    let r = placed(src, at, line);
    let l = next_line(r);
    let q = moved(r, l.next);
    stepped(l, q.at, q.line)
}
