// Event lines in, answer lines out. What they mean stands in specs/Events of `board_events`.
#![tactic(auto)]

ghost use Rattle.std.specs.Prelude.{◌≡◌, ◌++◌, true, ◌+◌, ◌≤◌, length, take};
ghost use Rattle.listing.specs.Listing.{line};
ghost use Rattle.text_letters.specs.Wrote.{Wrote};
ghost use Rattle.board_rules.specs.PlanViews.{facts};
ghost use Rattle.board_rules.specs.Settle.{Marked};
ghost use Rattle.board_events.specs.Events.{answer_fields, replies_to};
ghost use Rattle.log_replies.specs.Parts.{end_text};
ghost use Rattle.log_answers.specs.Tells.{told_into, moving, Space, Adds};

use board_rules::{Board, BoardAnswer, PlanView};
use plan::LF;

// Is the answer no refusal? After a refusal the board is as it was.
fn moves(a: BoardAnswer) -> bool
    ensures { result ≡ moving a }
{
    match a {
        BoardAnswer::Refused(_) => false,
        _ => true,
    }
}

// Writes an answer's line behind the first n bytes.
fn line_at(out: &mut [u8], n: usize, a: BoardAnswer) -> usize
    requires { n + length (line (answer_fields a)) ≤ length out.old }
    ensures { Wrote (take n out.old ++ line (answer_fields a)) out.old out.new result }
{
    n + log_replies::answer_line(&mut out[n..], a)
}

// Tells an answer behind the first n bytes: written where `on`, else only counted.
fn tell(on: bool, out: &mut [u8], n: usize, a: BoardAnswer) -> usize
    requires { Space on (line (answer_fields a)) out.old n }
    ensures { Adds on (line (answer_fields a)) out.old out.new n result }
{
    if on {
        return line_at(out, n, a);
    }
    n + log_replies::answer_size(a)
}

// Tells the answer to the last piece, of k bytes, behind the first n bytes.
fn tell_end(on: bool, out: &mut [u8], n: usize, k: usize) -> usize
    requires { Space on (end_text k) out.old n }
    ensures { Adds on (end_text k) out.old out.new n result }
{
    if k == 0 {
        return n;
    }
    let a = log_replies::unended();
    tell(on, out, n, a)
}

// The answers to the events of src: written one after another where `on`, else only counted; returns their size.
pub fn answers(on: bool, b: Board, plan: &PlanView, src: &[u8], out: &mut [u8]) -> usize
    requires { (length src.now ≤ 65536) × (on ≡ true → length (replies_to (facts plan.now) b src.now) ≤ length out.old) × Marked (facts plan.now) b }
    ensures value { result ≡ length (replies_to (facts plan.now) b src.now) }
    ensures out_after { out.new ≡ told_into on (replies_to (facts plan.now) b src.now) out.old }
{
    let mut t = b;
    let mut n: usize = 0;
    let mut at = 0;
    loop {
        let rest = &src[at..];
        let k = text_lines::cut(rest, LF);
        if k == rest.len() {
            return tell_end(on, out, n, k);
        }
        let next = at + k + 1;
        let o = log_lines::on_line(t, plan, &rest[..k]);
        let a = o.answer;
        let m = tell(on, out, n, a);
        n = m;
        if moves(a) {
            t = o.board;
        }
        at = next;
    }
}
