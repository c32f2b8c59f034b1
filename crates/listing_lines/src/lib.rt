// The listing's lines, each written at the start of a lent buffer, and their sizes. The texts are those of specs/Lines.
#![tactic(auto)]

ghost use Rattle.std.specs.Prelude.{◌≡◌, ◌∷◌, ◌≤◌, length};
ghost use Rattle.laws.specs.Decimal.{decimal};
ghost use Rattle.plan.specs.Refusals.{number_of};
ghost use Rattle.listing.specs.Listing.{task_fields, wait_fields, refused_line};
ghost use Rattle.text_letters.specs.Wrote.{Wrote, Sized};
ghost use Rattle.text_letters.specs.Tabbed.{tabbed, rest};
ghost use Rattle.listing_lines.specs.Lines.{head_text, vcpu_text, wait_text, task_text, all_text, parts_of, task_parts, answer_word};

use figures::TaskAnswer;
use plan::{Complaint, Refusal};
use search::Answer;

// An answer, taken apart: its kind (0 late, 1 fits, 2 nowait, 3 held), its ticks, and its rounds.
#[derive(Clone, Copy)]
struct Parts {
    kind: u64,
    ticks: u64,
    rounds: u64,
}

fn parts_of(a: Answer) -> Parts
    ensures { result ≡ parts_of a }
{
    match a {
        Answer::Fits { w, rounds: n } => Parts {
            kind: 1,
            ticks: w,
            rounds: n,
        },
        Answer::Late { rounds: n } => Parts {
            kind: 0,
            ticks: 0,
            rounds: n,
        },
    }
}

fn task_parts(a: TaskAnswer) -> Parts
    ensures { result ≡ task_parts a }
{
    match a {
        TaskAnswer::Searched(b) => parts_of(b),
        TaskAnswer::NoWait => Parts {
            kind: 2,
            ticks: 0,
            rounds: 0,
        },
        TaskAnswer::Held => Parts {
            kind: 3,
            ticks: 0,
            rounds: 0,
        },
    }
}

// A refusal's number.
pub fn number_of(r: Refusal) -> u64
    ensures { result ≡ number_of r }
{
    match r {
        Refusal::Shape => 1,
        Refusal::Number => 2,
        Refusal::Range => 3,
        Refusal::Order => 4,
        Refusal::Missing => 5,
        Refusal::Outside => 6,
        Refusal::TooMany => 7,
        Refusal::Room => 8,
        Refusal::Foreign => 9,
        Refusal::Unknown => 10,
        Refusal::Unlisted => 11,
        Refusal::Asleep => 12,
        Refusal::Busy => 13,
        Refusal::NotHolder => 14,
        Refusal::Supply => 15,
    }
}

// Writes a tab and an answer's word.
fn tab_answer(out: &mut [u8], c: u64) -> usize
    requires { length (tabbed (answer_word c)) ≤ length out.old }
    ensures { Wrote (tabbed (answer_word c)) out.old out.new result }
{
    let held = text_letters::pick(c == 2, b"nowait", b"held");
    let fits = text_letters::pick(c == 1, b"fits", held);
    let word = text_letters::pick(c == 0, b"late", fits);
    text_letters::tab_word(out, word)
}

// Writes a task's answer to the line's end.
fn task_rest(out: &mut [u8], a: TaskAnswer) -> usize
    requires { length (rest (task_fields a)) ≤ length out.old }
    ensures { Wrote (rest (task_fields a)) out.old out.new result }
{
    let p = task_parts(a);
    let k = tab_answer(out, p.kind);
    k + text_letters::ticks_rest(&mut out[k..], p.kind == 1, p.ticks, b"-", p.rounds)
}

// Writes a wait's place and answer to the line's end.
fn wait_rest(out: &mut [u8], place: u64, a: Answer) -> usize
    requires { length (rest (decimal place ∷ wait_fields a)) ≤ length out.old }
    ensures { Wrote (rest (decimal place ∷ wait_fields a)) out.old out.new result }
{
    let p = parts_of(a);
    let k = text_letters::tab_number(out, place);
    k + text_letters::ticks_rest(&mut out[k..], p.kind == 1, p.ticks, b"none", p.rounds)
}

// Writes the first line.
pub fn head_line(out: &mut [u8]) -> usize
    requires { length head_text ≤ length out.old }
    ensures { Wrote head_text out.old out.new result }
{
    text_letters::put(out, b"verdict\t1\n")
}

// Writes a VCPU's line.
pub fn vcpu_line(out: &mut [u8], v: u64, a: Answer) -> usize
    requires { length (vcpu_text v a) ≤ length out.old }
    ensures { Wrote (vcpu_text v a) out.old out.new result }
{
    let b = TaskAnswer::Searched(a);
    let k = text_letters::word_one(out, b"vcpu", v);
    k + task_rest(&mut out[k..], b)
}

// Writes a wait's line.
pub fn wait_line(out: &mut [u8], v: u64, n: u64, place: u64, a: Answer) -> usize
    requires { length (wait_text v n place a) ≤ length out.old }
    ensures { Wrote (wait_text v n place a) out.old out.new result }
{
    let k = text_letters::word_two(out, b"wait", v, n);
    k + wait_rest(&mut out[k..], place, a)
}

// Writes a task's line.
pub fn task_line(out: &mut [u8], v: u64, n: u64, a: TaskAnswer) -> usize
    requires { length (task_text v n a) ≤ length out.old }
    ensures { Wrote (task_text v n a) out.old out.new result }
{
    let k = text_letters::word_two(out, b"task", v, n);
    k + task_rest(&mut out[k..], a)
}

// Writes the last line.
pub fn all_line(out: &mut [u8], fits: bool) -> usize
    requires { length (all_text fits) ≤ length out.old }
    ensures { Wrote (all_text fits) out.old out.new result }
{
    let w = text_letters::pick(fits, b"all\tfits\n", b"all\tlate\n");
    text_letters::put(out, w)
}

// Writes the one line of a refused plan.
pub fn refused_line(out: &mut [u8], c: Complaint) -> usize
    requires { length (refused_line c) ≤ length out.old }
    ensures { Wrote (refused_line c) out.old out.new result }
{
    let r = c.number;
    let n = number_of(r);
    let k = text_letters::word_two(out, b"refused", n, c.line as u64);
    k + text_letters::last_rest(&mut out[k..], c.field)
}

fn answer_size(c: u64) -> usize
    ensures { Sized (answer_word c) 6 result }
{
    let held = text_letters::pick(c == 2, b"nowait", b"held");
    let fits = text_letters::pick(c == 1, b"fits", held);
    let word = text_letters::pick(c == 0, b"late", fits);
    word.len()
}

fn task_rest_size(a: TaskAnswer) -> usize
    ensures { Sized (rest (task_fields a)) 50 result }
{
    let p = task_parts(a);
    let x = answer_size(p.kind);
    let y = text_letters::ticks_size(p.kind == 1, p.ticks, b"-", p.rounds);
    x + y + 1
}

fn wait_rest_size(place: u64, a: Answer) -> usize
    ensures { Sized (rest (decimal place ∷ wait_fields a)) 64 result }
{
    let p = parts_of(a);
    let x = text_letters::number_size(place);
    let y = text_letters::ticks_size(p.kind == 1, p.ticks, b"none", p.rounds);
    x + y + 1
}

// The sizes of the lines, with which a caller tests the room.

pub fn head_size() -> usize
    ensures { Sized head_text 10 result }
{
    10
}

pub fn vcpu_size(v: u64, a: Answer) -> usize
    ensures { Sized (vcpu_text v a) 75 result }
{
    let b = TaskAnswer::Searched(a);
    let x = text_letters::number_size(v);
    let y = task_rest_size(b);
    x + y + 1 + 4
}

pub fn wait_size(v: u64, n: u64, place: u64, a: Answer) -> usize
    ensures { Sized (wait_text v n place a) 110 result }
{
    let x = text_letters::number_size(v);
    let y = text_letters::number_size(n);
    let z = wait_rest_size(place, a);
    x + (y + z + 1) + 1 + 4
}

pub fn task_size(v: u64, n: u64, a: TaskAnswer) -> usize
    ensures { Sized (task_text v n a) 96 result }
{
    let x = text_letters::number_size(v);
    let y = text_letters::number_size(n);
    let z = task_rest_size(a);
    x + (y + z + 1) + 1 + 4
}

pub fn all_size(fits: bool) -> usize
    ensures { Sized (all_text fits) 9 result }
{
    9
}

pub fn refused_size(c: Complaint) -> usize
    ensures { Sized (refused_line c) 71 result }
{
    let r = c.number;
    let n = number_of(r);
    let x = text_letters::number_size(n);
    let y = text_letters::number_size(c.line as u64);
    let z = text_letters::number_size(c.field);
    x + (y + (z + 1 + 1) + 1) + 1 + 7
}
