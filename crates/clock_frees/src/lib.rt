// A finished section is freed in a core's turn on the clock, on the board's arrays and what is kept beside them. What it is stands in specs/Clock of `clock_rules`.
#![tactic(auto)]

ghost use Rattle.std.specs.Prelude.{◌≡◌, ◌<◌, ◌≤◌};
ghost use Rattle.board_rules.specs.PlanViews.{facts};
ghost use Rattle.board_events.specs.Events.{answers};
ghost use Rattle.clock_rules.specs.Clock.{free_of};
ghost use Rattle.clock_rules.specs.Trace.{lines_at};
ghost use Rattle.clock_lines.specs.Told.{RoomAt};
ghost use Rattle.clock_marks.specs.Marks.{Sized, Mirrors, board_of, run_in, done_in};
ghost use Rattle.clock_steps.specs.Hands.{any_hands_on};
ghost use Rattle.clock_going.specs.Going.{Made};
ghost use Rattle.clock_going.specs.Lent.{GoingOf, timing};
ghost use Rattle.clock_hands.specs.Holding.{holds_in};
ghost use Rattle.clock_hands.specs.Freed.{next_in, NextIn, Passed, GotGlobal, PutFreed, Frees};
ghost use Rattle.clock_frees.specs.Handing.{goes_on};

use board_rules::{Board, BoardAnswer, Event, Next, PlanView};
use plan::OverrunChoice;

// Where the text goes on after the work of a turn; and whether a mutex was handed on in it.
#[derive(Clone, Copy)]
pub struct Worked {
    pub at: usize,
    pub handed: bool,
}

// Who gets the freed mutex.
fn next_in(a: BoardAnswer) -> Next
    ensures { result ≡ next_in a }
{
    match a {
        BoardAnswer::Granted => Next::Nobody,
        BoardAnswer::Waits => Next::Nobody,
        BoardAnswer::Freed(w) => w,
        BoardAnswer::Left { b: _, o: _ } => Next::Nobody,
        BoardAnswer::Shows { task: _, vcpu: _ } => Next::Nobody,
        BoardAnswer::Refused(_) => Next::Nobody,
    }
}

// The freed mutex goes to a task that waited.
fn goes_on(next: Next) -> bool
    ensures { result ≡ goes_on next }
{
    match next {
        Next::Nobody => false,
        Next::To { v: _, n: _ } => true,
    }
}

// The next one has the mutex, where there is one: no mutex is walked over for a global one.
fn passed(view: &[u64], holder: &[u16], marks: &mut [u64], global: bool, next: Next)
    requires { Sized marks.old × NextIn next × GotGlobal view.now holder.now global next }
    ensures { Passed view.now holder.now next marks.old marks.new }
{
    match next {
        Next::Nobody => {}
        Next::To { v: w, n: x } => {
            if global {
                clock_hands::handed(marks, w, x, 33, true);
            } else {
                let m = clock_hands::held_now(view, holder, w, x);
                let held = board_walks::holds_global(view, holder, w);
                clock_hands::handed(marks, w, x, m, held);
            }
        }
    }
}

// Some task of v holds a global mutex, by what is kept of its holders.
fn holds_in(marks: &[u64], v: u64) -> bool
    requires { Sized marks.now × (0 < v) × (v ≤ 16) }
    ensures { result ≡ holds_in marks.now v }
{
    let mut rest = board_seats::at(marks, 19 + v);
    while rest != 0 {
        let x = clock_sets::highest_in(rest);
        if clock_puts::held(marks, v, x) == 33 {
            return true;
        }
        rest = clock_sets::without(rest, x);
    }
    false
}

// Task (v, n) has freed its mutex, and the next one has it.
fn after_free(
    choice: OverrunChoice,
    view: &[u64],
    left: &[u64],
    over: &[u64],
    stopped: &[bool],
    holder: &[u16],
    marks: &mut [u64],
    v: u64,
    n: u64,
    global: bool,
    next: Next,
)
    requires { Sized marks.old × (0 < v) × (v ≤ 16) × (0 < n) × (n ≤ 8) × NextIn next × GotGlobal view.now holder.now global next }
    ensures { PutFreed choice view.now left.now over.now stopped.now holder.now v n next marks.old marks.new }
{
    clock_puts::put_held(marks, v, n, 0);
    passed(view, holder, marks, global, next);
    let held = holds_in(marks, v);
    clock_puts::put_in(marks, clock_puts::HOLDING, v, held);
    clock_uses::after_use(choice, left, over, stopped, marks, v);
}

// Task (v, n) frees m, where a section is finished.
pub fn freeing(
    on: bool,
    plan: &PlanView,
    times: &[u64],
    left: &[u64],
    over: &[u64],
    stopped: &mut [bool],
    holder: &mut [u16],
    waits: &mut [u8],
    marks: &mut [u64],
    v: u64,
    n: u64,
    m: u64,
    t: u64,
    out: &mut [u8],
    at: usize,
) -> Worked
    requires v_nonzero { (0 < v) × (v ≤ 16) × (0 < n) × (n ≤ 8) × GoingOf plan.now times.now left.now over.now stopped.old holder.old waits.old marks.old × Frees (facts plan.now) (board_of left.now over.now stopped.old holder.old waits.old) v n m }
    requires room_at { RoomAt on (lines_at (facts plan.now) t (board_of left.now over.now stopped.old holder.old waits.old) (free_of v n m)) out.old at }
    ensures mirrors { Mirrors (timing plan.now times.now) times.now (board_of left.now over.now stopped.new holder.new waits.new) marks.new }
    ensures made { Made (facts plan.now) on t (run_in left.now over.now stopped.old holder.old waits.old marks.old) (run_in left.now over.now stopped.new holder.new waits.new marks.new) (free_of v n m) out.old at out.new result.at }
    ensures marks_unchanged { done_in marks.new ≡ done_in marks.old }
    ensures handed_value { result.handed ≡ any_hands_on (answers (facts plan.now) (board_of left.now over.now stopped.old holder.old waits.old) (free_of v n m)) }
{
    if m == 0 {
        return Worked { at, handed: false };
    }
    let a = Board::free_sure(plan, left, stopped, holder, waits, v, n, m);
    let global = board_seats::is_global(plan.view, m);
    let next = next_in(a);
    let handed = goes_on(next);
    after_free(
        plan.overrun,
        plan.view,
        left,
        over,
        stopped,
        holder,
        marks,
        v,
        n,
        global,
        next,
    );
    let w = clock_lines::tell(on, out, at, t, Event::Free { v, n, m }, a);
    Worked { at: w, handed }
}
