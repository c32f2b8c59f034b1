// The fields of an event and of its answer, behind the tick that begins their line. The line is that of specs/Trace of `clock_rules`.
#![tactic(auto)]

ghost use Rattle.std.specs.Prelude.{◌++◌, ◌≤◌, length};
ghost use Rattle.laws.specs.Decimal.{decimal};
ghost use Rattle.text_letters.specs.Wrote.{Wrote};
ghost use Rattle.text_letters.specs.Tabbed.{tabbed, rest};
ghost use Rattle.board_events.specs.Events.{answer_fields};
ghost use Rattle.clock_rules.specs.Trace.{event_fields};
ghost use Rattle.clock_words.specs.EventLaws.{event_tabs};

use board_rules::{BoardAnswer, Event};

// Writes a word and three numbers, each after a tab.
fn word_three(out: &mut [u8], w: &[u8], v: u64, n: u64, m: u64) -> usize
    requires { length (((w.now ++ tabbed (decimal v)) ++ tabbed (decimal n)) ++ tabbed (decimal m)) ≤ length out.old }
    ensures { Wrote (((w.now ++ tabbed (decimal v)) ++ tabbed (decimal n)) ++ tabbed (decimal m)) out.old out.new result }
{
    let k = text_letters::word_two(out, w, v, n);
    k + text_letters::tab_number(&mut out[k..], m)
}

// Writes an event's fields, each after a tab.
fn event_tabs(out: &mut [u8], e: Event) -> usize
    requires { length (event_tabs e) ≤ length out.old }
    ensures { Wrote (event_tabs e) out.old out.new result }
{
    match e {
        Event::Ask { v, n, m } => word_three(out, b"\task", v, n, m),
        Event::Free { v, n, m } => word_three(out, b"\tfree", v, n, m),
        Event::Use { v, t } => text_letters::word_two(out, b"\tuse", v, t),
        Event::Top { v } => text_letters::word_one(out, b"\ttop", v),
        Event::Show { v, n } => text_letters::word_two(out, b"\tshow", v, n),
    }
}

// Writes a tab and an answer's line.
fn answer_rest(out: &mut [u8], a: BoardAnswer) -> usize
    requires { length (rest (answer_fields a)) ≤ length out.old }
    ensures { Wrote (rest (answer_fields a)) out.old out.new result }
{
    let k = text_letters::put(out, b"\t");
    k + log_replies::answer_line(&mut out[k..], a)
}

// Writes what follows the tick: the event's fields and the answer's.
pub fn event_rest(out: &mut [u8], e: Event, a: BoardAnswer) -> usize
    requires { length (rest (event_fields e ++ answer_fields a)) ≤ length out.old }
    ensures { Wrote (rest (event_fields e ++ answer_fields a)) out.old out.new result }
{
    let k = event_tabs(out, e);
    k + answer_rest(&mut out[k..], a)
}
