// Who holds a mutex that a turn on the clock has freed, on what is kept beside the board. What it is stands in specs/Clock of `clock_rules`, what is written in specs/Freed.
#![tactic(auto)]

ghost use Rattle.std.specs.Prelude.{◌≡◌, ◌<◌, ◌≤◌};
ghost use Rattle.clock_marks.specs.Marks.{Sized};
ghost use Rattle.clock_hands.specs.Freed.{held_at, Handed};

// What task (w, x) holds, by the holders.
pub fn held_now(view: &[u64], holder: &[u16], w: u64, x: u64) -> u64
    requires { (w ≤ 16) × (x ≤ 8) }
    ensures { result ≡ held_at view.now holder.now w x }
{
    if board_walks::held_global(view, holder, w, x) {
        return 33;
    }
    board_walks::held_local(view, holder, w, x)
}

// Task (w, x), who waited, has been handed a mutex: it holds m, and the tasks of w hold a global mutex or not.
pub fn handed(marks: &mut [u64], w: u64, x: u64, m: u64, global: bool)
    requires { Sized marks.old × (0 < w) × (w ≤ 16) × (0 < x) × (x ≤ 8) }
    ensures { Handed m global w x marks.old marks.new }
{
    clock_puts::put_held(marks, w, x, m);
    clock_puts::put_ready(marks, w, x, true);
    clock_puts::put_in(marks, clock_puts::HOLDING, w, global);
}
