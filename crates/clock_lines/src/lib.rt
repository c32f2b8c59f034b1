// The lines that `clock` prints, each written at the start of a lent buffer. The texts are those of specs/Trace of `clock_rules`.
#![tactic(auto)]

ghost use Rattle.std.specs.Prelude.{◌≡◌, ◌≤◌, length};
ghost use Rattle.text_letters.specs.Wrote.{Wrote};
ghost use Rattle.clock_rules.specs.Trace.{event_line, end_line, missed_line, refused_alone};
ghost use Rattle.clock_lines.specs.Told.{told_at, told_to, RoomAt};

use board_rules::{BoardAnswer, Event};
use plan::Refusal;

// Writes an event's line: the tick, the event and the answer.
pub fn event_line(out: &mut [u8], t: u64, e: Event, a: BoardAnswer) -> usize
    requires { length (event_line t e a) ≤ length out.old }
    ensures { Wrote (event_line t e a) out.old out.new result }
{
    let k = text_letters::put_number(out, t);
    k + clock_words::event_rest(&mut out[k..], e, a)
}

// Tells an event's line behind the first `at` bytes where `on`, else not at all; returns the place behind it.
pub fn tell(on: bool, out: &mut [u8], at: usize, t: u64, e: Event, a: BoardAnswer) -> usize
    requires { RoomAt on (event_line t e a) out.old at }
    ensures value { result ≡ told_to on (event_line t e a) at }
    ensures out_after { out.new ≡ told_at on (event_line t e a) out.old at }
{
    if on {
        return at + event_line(&mut out[at..], t, e, a);
    }
    at
}

// Writes the last line of a run that ended.
pub fn end_line(out: &mut [u8], h: u64) -> usize
    requires { length (end_line h) ≤ length out.old }
    ensures { Wrote (end_line h) out.old out.new result }
{
    let k = text_letters::put(out, b"end");
    k + text_letters::last_rest(&mut out[k..], h)
}

// Writes the last line of a run that missed: the tick, the VCPU and the task.
pub fn missed_line(out: &mut [u8], t: u64, v: u64, n: u64) -> usize
    requires { length (missed_line t v n) ≤ length out.old }
    ensures { Wrote (missed_line t v n) out.old out.new result }
{
    let k = text_letters::word_two(out, b"missed", t, v);
    k + text_letters::last_rest(&mut out[k..], n)
}

// Writes the line that refuses the line `horizon h`.
pub fn refused_alone(out: &mut [u8], k: Refusal) -> usize
    requires { length (refused_alone k) ≤ length out.old }
    ensures { Wrote (refused_alone k) out.old out.new result }
{
    let a = BoardAnswer::Refused(k);
    log_replies::answer_line(out, a)
}
