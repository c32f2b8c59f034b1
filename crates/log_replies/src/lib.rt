// How an answer of the board is written as a line, and how long that line is. What it says stands in specs/Events of `board_events`.
#![tactic(auto)]

ghost use Rattle.std.specs.Prelude.{◌≡◌, [], ◌∷◌, ◌≤◌, length};
ghost use Rattle.laws.specs.Decimal.{decimal};
ghost use Rattle.plan.specs.declared.Refusal.TheVariants.{Shape};
ghost use Rattle.listing.specs.Listing.{line};
ghost use Rattle.text_letters.specs.Wrote.{Wrote, Sized};
ghost use Rattle.board_events.specs.Events.{answer_fields};
ghost use Rattle.log_replies.specs.Parts.{next_parts, parts_of, plain_text, pair_word, parts_text};

use board_rules::{BoardAnswer, Next};
use plan::Refusal;

// An answer, taken apart: how many numbers its line has, which of the lines with as many it is, and the numbers.
#[derive(Clone, Copy)]
struct Parts {
    count: u64,
    word: u64,
    x: u64,
    y: u64,
}

// An answer taken apart: of a freed mutex,
fn next_parts(w: Next) -> Parts
    ensures { result ≡ next_parts w }
{
    match w {
        Next::Nobody => Parts {
            count: 0,
            word: 2,
            x: 0,
            y: 0,
        },
        Next::To { v, n } => Parts {
            count: 2,
            word: 0,
            x: v,
            y: n,
        },
    }
}

// of a refusal,
fn refused_parts(r: Refusal) -> Parts
    ensures { result ≡ parts_of (BoardAnswer.Refused r) }
{
    let n = listing_lines::number_of(r);
    Parts {
        count: 1,
        word: 0,
        x: n,
        y: 0,
    }
}

// and of any answer.
fn parts_of(a: BoardAnswer) -> Parts
    ensures { result ≡ parts_of a }
{
    match a {
        BoardAnswer::Granted => Parts {
            count: 0,
            word: 0,
            x: 0,
            y: 0,
        },
        BoardAnswer::Waits => Parts {
            count: 0,
            word: 1,
            x: 0,
            y: 0,
        },
        BoardAnswer::Freed(w) => next_parts(w),
        BoardAnswer::Left { b, o } => Parts {
            count: 2,
            word: 1,
            x: b,
            y: o,
        },
        BoardAnswer::Shows { task, vcpu } => Parts {
            count: 2,
            word: 2,
            x: task,
            y: vcpu,
        },
        BoardAnswer::Refused(r) => refused_parts(r),
    }
}

// Writes a line with no number.
fn plain_line(out: &mut [u8], word: u64) -> usize
    requires { length (plain_text word) ≤ length out.old }
    ensures { Wrote (plain_text word) out.old out.new result }
{
    let later = text_letters::pick(word == 1, b"waits\n", b"freed\t-\t-\n");
    let text = text_letters::pick(word == 0, b"granted\n", later);
    text_letters::put(out, text)
}

// Writes a word's line with a number.
fn one_line(out: &mut [u8], w: &[u8], x: u64) -> usize
    requires { length (line (w.now ∷ decimal x ∷ [])) ≤ length out.old }
    ensures { Wrote (line (w.now ∷ decimal x ∷ [])) out.old out.new result }
{
    let k = text_letters::put(out, w);
    k + text_letters::last_rest(&mut out[k..], x)
}

// Writes a word's line with two numbers.
fn two_line(out: &mut [u8], w: &[u8], x: u64, y: u64) -> usize
    requires { length (line (w.now ∷ decimal x ∷ decimal y ∷ [])) ≤ length out.old }
    ensures { Wrote (line (w.now ∷ decimal x ∷ decimal y ∷ [])) out.old out.new result }
{
    let k = text_letters::word_one(out, w, x);
    k + text_letters::last_rest(&mut out[k..], y)
}

// Writes a line with two numbers.
fn pair_line(out: &mut [u8], word: u64, x: u64, y: u64) -> usize
    requires { length (line (pair_word word ∷ decimal x ∷ decimal y ∷ [])) ≤ length out.old }
    ensures { Wrote (line (pair_word word ∷ decimal x ∷ decimal y ∷ [])) out.old out.new result }
{
    let later = text_letters::pick(word == 1, b"left", b"show");
    let w = text_letters::pick(word == 0, b"freed", later);
    two_line(out, w, x, y)
}

// Writes the line of an answer that is taken apart.
fn parts_line(out: &mut [u8], count: u64, word: u64, x: u64, y: u64) -> usize
    requires { length (parts_text count word x y) ≤ length out.old }
    ensures { Wrote (parts_text count word x y) out.old out.new result }
{
    if count == 0 {
        return plain_line(out, word);
    }
    if count == 1 {
        return one_line(out, b"refused", x);
    }
    pair_line(out, word, x, y)
}

// Writes an answer's line.
pub fn answer_line(out: &mut [u8], a: BoardAnswer) -> usize
    requires { length (line (answer_fields a)) ≤ length out.old }
    ensures { Wrote (line (answer_fields a)) out.old out.new result }
{
    let p = parts_of(a);
    parts_line(out, p.count, p.word, p.x, p.y)
}

// The size of a line with no number.
fn plain_size(word: u64) -> usize
    ensures { Sized (plain_text word) 10 result }
{
    if word == 0 {
        return 8;
    }
    if word == 1 {
        return 6;
    }
    10
}

// The size of the word of a line with two numbers.
fn word_size(word: u64) -> usize
    ensures { Sized (pair_word word) 5 result }
{
    if word == 0 {
        return 5;
    }
    4
}

// The size of the line of an answer that is taken apart.
fn parts_size(count: u64, word: u64, x: u64, y: u64) -> usize
    ensures { Sized (parts_text count word x y) 60 result }
{
    let one = text_letters::number_size(x);
    let two = text_letters::number_size(y);
    let w = word_size(word);
    if count == 0 {
        return plain_size(word);
    }
    if count == 1 {
        return one + 1 + 1 + 7;
    }
    one + (two + 1 + 1) + 1 + w
}

// The size of an answer's line.
pub fn answer_size(a: BoardAnswer) -> usize
    ensures { Sized (line (answer_fields a)) 60 result }
{
    let p = parts_of(a);
    parts_size(p.count, p.word, p.x, p.y)
}

// The answer to what follows the last LF, where it is not nothing.
pub fn unended() -> BoardAnswer
    ensures { result ≡ BoardAnswer.Refused Shape }
{
    BoardAnswer::Refused(Refusal::Shape)
}
