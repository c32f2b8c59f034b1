// The work of a core's turn on the clock, on the board's arrays and what is kept beside them. What it is stands in specs/Clock of `clock_rules`.
#![tactic(auto)]

ghost use Rattle.std.specs.Prelude.{◌≡◌, ◌<◌, ◌≤◌};
ghost use Rattle.board_rules.specs.PlanViews.{facts};
ghost use Rattle.board_events.specs.Events.{answers};
ghost use Rattle.clock_rules.specs.Clock.{work, work_done};
ghost use Rattle.clock_rules.specs.Trace.{lines_at};
ghost use Rattle.clock_lines.specs.Told.{RoomAt};
ghost use Rattle.clock_marks.specs.Marks.{Sized, board_of, run_in, done_in, done_cell, place_cell};
ghost use Rattle.clock_mirrors.specs.Writes.{PutJob};
ghost use Rattle.clock_steps.specs.Hands.{any_hands_on};
ghost use Rattle.clock_going.specs.Going.{Made};
ghost use Rattle.clock_going.specs.Lent.{GoingOf, timing};
ghost use Rattle.clock_works.specs.Worked.{WorkerOn, place_with, OneMore};

use board_rules::{Board, Event, Next, PlanView};
pub use clock_frees::Worked;

// d ticks are done of the job of (v, n), and one more section has ended where m is not 0.
fn put_job(marks: &mut [u64], v: u64, n: u64, m: u64, d: u64)
    requires { Sized marks.old × (0 < v) × (v ≤ 16) × (0 < n) × (n ≤ 8) × (place_cell marks.old v n ≤ 8) }
    ensures { PutJob marks.old marks.new v n d (place_with m (place_cell marks.old v n)) }
{
    clock_puts::put_done(marks, v, n, d);
    if m != 0 {
        let q = clock_puts::place(marks, v, n) + 1;
        clock_puts::put_place(marks, v, n, q);
    }
}

// One more tick is done of the job of (v, n), and the section on m has ended where m is not 0.
fn one_more(times: &[u64], marks: &mut [u64], v: u64, n: u64, m: u64)
    requires { Sized marks.old × (0 < v) × (v ≤ 16) × (0 < n) × (n ≤ 8) × (done_cell marks.old v n ≤ 17000000) × (place_cell marks.old v n ≤ 8) }
    ensures { OneMore times.now v n m marks.old marks.new }
{
    let d = clock_puts::done(marks, v, n) + 1;
    let e = board_seats::at(times, 159 + board_seats::seat(v, n));
    put_job(marks, v, n, m, d);
    if d == e {
        clock_puts::put_ready(marks, v, n, false);
    }
}

// The picked task uses one tick; a finished section is freed at once.
pub fn work(
    on: bool,
    plan: &PlanView,
    times: &[u64],
    left: &mut [u64],
    over: &mut [u64],
    stopped: &mut [bool],
    holder: &mut [u16],
    waits: &mut [u8],
    marks: &mut [u64],
    v: u64,
    n: u64,
    t: u64,
    out: &mut [u8],
    at: usize,
) -> Worked
    requires going { GoingOf plan.now times.now left.old over.old stopped.old holder.old waits.old marks.old × WorkerOn (timing plan.now times.now) (board_of left.old over.old stopped.old holder.old waits.old) (done_in marks.old) v n }
    requires room_at { RoomAt on (lines_at (facts plan.now) t (board_of left.old over.old stopped.old holder.old waits.old) (work (timing plan.now times.now) (done_in marks.old) (Next.To v n))) out.old at }
    ensures going_2 { GoingOf plan.now times.now left.new over.new stopped.new holder.new waits.new marks.new }
    ensures made { Made (facts plan.now) on t (run_in left.old over.old stopped.old holder.old waits.old marks.old) (run_in left.new over.new stopped.new holder.new waits.new marks.new) (work (timing plan.now times.now) (done_in marks.old) (Next.To v n)) out.old at out.new result.at }
    ensures marks_after { done_in marks.new ≡ work_done (done_in marks.old) (Next.To v n) }
    ensures handed_value { result.handed ≡ any_hands_on (answers (facts plan.now) (board_of left.old over.old stopped.old holder.old waits.old) (work (timing plan.now times.now) (done_in marks.old) (Next.To v n))) }
{
    let used = if 1 < board_seats::figure(left, v) {
        let a = board_sures::use_within(plan, left, over, stopped, holder, v);
        clock_lines::tell(on, out, at, t, Event::Use { v, t: 1 }, a)
    } else {
        clock_uses::use_one(
            on, plan, times, left, over, stopped, holder, waits, marks, v, t, out, at,
        )
    };
    let m = clock_dues::over(times, marks, v, n);
    let freed = clock_frees::freeing(
        on, plan, times, left, over, stopped, holder, waits, marks, v, n, m, t, out, used,
    );
    one_more(times, marks, v, n, m);
    freed
}
