// The cores' turns, those that stay the same with what is known of them.
#![tactic(auto)]

ghost use Rattle.std.specs.Prelude.{◌≡◌, true, false, length, ◌≤◌};
ghost use Rattle.clock_marks.specs.Marks.{board_of, run_in, done_in};
ghost use Rattle.clock_rules.specs.Clock as clock;
ghost use Rattle.clock_going.specs.Lent.{GoingOf, timing};
ghost use Rattle.clock_reaches.specs.Stretches.{plain_length};
ghost use Rattle.clock_spends.specs.Spends.{Counted, Forgot};
ghost use Rattle.clock_strides.specs.Strides.{turn_or, turns_or, Others};
ghost use Rattle.clock_strides.specs.Lent.{StridedOf};

use board_rules::PlanView;
use board_seats::at;

// A mutex that is handed on makes a task ready on any core.
fn forget_if(handed: bool, plain: &mut [u64])
    requires { length plain.old ≡ plain_length }
    ensures { Forgot handed plain.old plain.new }
{
    if handed {
        clock_spends::forget(plain);
        return;
    }
}

// Core c's turn at tick t, with whether all is known of it then. Where `look`, it takes none.
fn taken(
    plan: &PlanView,
    times: &[u64],
    left: &mut [u64],
    over: &mut [u64],
    stopped: &mut [bool],
    holder: &mut [u16],
    waits: &mut [u8],
    marks: &mut [u64],
    plain: &mut [u64],
    c: u64,
    t: u64,
    look: bool,
) -> bool
    requires { GoingOf plan.now times.now left.old over.old stopped.old holder.old waits.old marks.old × Counted (timing plan.now times.now) (board_of left.old over.old stopped.old holder.old waits.old) (done_in marks.old) plain.old × (c ≤ 3) }
    ensures { (result ≡ true → StridedOf plan.now times.now (turn_or look (timing plan.now times.now) c (run_in left.old over.old stopped.old holder.old waits.old marks.old)) left.new over.new stopped.new holder.new waits.new marks.new plain.new) × (result ≡ false → Others plan.now.policy plan.now.overrun plan.now.view.now times.now c (turn_or look (timing plan.now times.now) c (run_in left.old over.old stopped.old holder.old waits.old marks.old)) left.new over.new stopped.new holder.new waits.new marks.new plain.new) }
{
    if look {
        return false;
    }
    if 0 < at(plain, c) {
        clock_spends::spend(plan.policy, left, marks, plain, c, 1);
        return true;
    }
    let mut none = [0u8; 1];
    let r = clock_turns::turn(
        false,
        plan,
        times,
        left,
        over,
        stopped,
        holder,
        waits,
        marks,
        c,
        at(plain, 4 + c),
        at(plain, 8 + c),
        t,
        &mut none,
        0,
    );
    forget_if(r.handed, plain);
    false
}

// The same, and it is found out for how long core c's turn stays the same.
fn turn_on(
    plan: &PlanView,
    times: &[u64],
    left: &mut [u64],
    over: &mut [u64],
    stopped: &mut [bool],
    holder: &mut [u16],
    waits: &mut [u8],
    marks: &mut [u64],
    plain: &mut [u64],
    c: u64,
    t: u64,
    look: bool,
)
    requires { GoingOf plan.now times.now left.old over.old stopped.old holder.old waits.old marks.old × Counted (timing plan.now times.now) (board_of left.old over.old stopped.old holder.old waits.old) (done_in marks.old) plain.old × (c ≤ 3) }
    ensures { StridedOf plan.now times.now (turn_or look (timing plan.now times.now) c (run_in left.old over.old stopped.old holder.old waits.old marks.old)) left.new over.new stopped.new holder.new waits.new marks.new plain.new }
{
    let whole = taken(
        plan, times, left, over, stopped, holder, waits, marks, plain, c, t, look,
    );
    if whole {
        return;
    }
    clock_spends::put_plain(
        plan, times, left, over, stopped, holder, waits, marks, plain, c,
    );
}

// The turns of cores 0 to 3 at tick t, or a look at them.
pub fn turns_on(
    plan: &PlanView,
    times: &[u64],
    left: &mut [u64],
    over: &mut [u64],
    stopped: &mut [bool],
    holder: &mut [u16],
    waits: &mut [u8],
    marks: &mut [u64],
    plain: &mut [u64],
    t: u64,
    look: bool,
)
    requires { GoingOf plan.now times.now left.old over.old stopped.old holder.old waits.old marks.old × Counted (timing plan.now times.now) (board_of left.old over.old stopped.old holder.old waits.old) (done_in marks.old) plain.old }
    ensures { StridedOf plan.now times.now (turns_or look (timing plan.now times.now) clock.cores (run_in left.old over.old stopped.old holder.old waits.old marks.old)) left.new over.new stopped.new holder.new waits.new marks.new plain.new }
{
    for c in 0u64..4 {
        turn_on(
            plan, times, left, over, stopped, holder, waits, marks, plain, c, t, look,
        );
    }
}
