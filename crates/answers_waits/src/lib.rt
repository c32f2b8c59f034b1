// The answers of VCPUs and of waits, one after the other into lent slices. What stands where is said in specs/Store of `figures_slices`.
#![tactic(auto)]

ghost use Rattle.std.specs.Prelude.{◌≡◌, true, ℕ, ◌+◌, ◌*◌, ◌<◌, ◌≤◌, length};
ghost use Rattle.search.specs.Search.{rounds};
ghost use Rattle.search.specs.Row.{row_in, pushed};
ghost use Rattle.plan_tables.specs.Layout.{over, lock_row, task_row};
ghost use Rattle.figures_cells.specs.Held.{system_of};
ghost use Rattle.figures.specs.Answers.{wait_answer, ticks_of};
ghost use Rattle.figures.specs.Figures.{is_section};
ghost use Rattle.figures.specs.Kinds.{answer_kind};
ghost use Rattle.figures_slices.specs.Lent.{TasksOf, VcpusOf, ResponsesOf};
ghost use Rattle.figures_slices.specs.Store.{vcpu_answers, wait_answers};
ghost use Rattle.figures_slices.specs.Filled.{answer_row, section_at, place_at, Places};

use figures_cells::PlanTables;
use search::Answer;

// What an answer is: 0 late, 1 fits.
pub fn kind_of(a: Answer) -> u64
    ensures { result ≡ answer_kind a }
{
    match a {
        Answer::Fits { w, rounds } => 1,
        Answer::Late { rounds } => 0,
    }
}

// The window of an answer, 0 where it is lacking.
pub fn ticks_of(a: Answer) -> u64
    ensures { result ≡ ticks_of a }
{
    match a {
        Answer::Fits { w, rounds } => w,
        Answer::Late { rounds } => 0,
    }
}

// The rounds of an answer.
pub fn rounds_of(a: Answer) -> u64
    ensures { result ≡ rounds a }
{
    match a {
        Answer::Fits { w, rounds } => rounds,
        Answer::Late { rounds } => rounds,
    }
}

// Writes answer n.
fn put_answer(xs: &mut [u64], n: usize, a: Answer)
    requires { n * 3 + 3 ≤ length xs.old }
    ensures { xs.new ≡ pushed xs.old n (answer_row a) }
{
    let x = kind_of(a);
    let y = ticks_of(a);
    let z = rounds_of(a);
    search_rows::push_row(xs, n, x, y, z);
}

// Fills the answers of the VCPUs.
pub fn fill_vcpus(t: &PlanTables, tf: &[u64], vf: &[u64], rows: &mut [u64], va: &mut [u64])
    requires { TasksOf t.now tf.now × VcpusOf t.now vf.now × (240 ≤ length rows.old) × (48 ≤ length va.old) }
    ensures { va.new ≡ over (vcpu_answers (system_of t.now)) va.old }
{
    let n = t.plan.vcpus;
    for a in 0..n {
        let x = times_vcpus::vcpu_answer(t, tf, vf, rows, a);
        put_answer(va, a, x);
    }
}

// Is lock j of task i a global section?
fn is_section(t: &PlanTables, i: usize, j: usize) -> bool
    requires { (i < t.now.plan.tasks) × (j < 8) }
    ensures { result ≡ section_at (system_of t.now) t.now.tasks.now i j }
{
    let m = t.lock_cell(i, j, 0);
    (j < t.lock_count(i)) & t.is_global(m)
}

// The answer of the wait of task i at its lock j, a global section.
fn wait_at(t: &PlanTables, rf: &[u64], rows: &mut [u64], i: usize, j: usize) -> Answer
    requires { ResponsesOf t.now rf.now × (t.now.plan.tasks * 8 ≤ length rf.now) × (i < t.now.plan.tasks) × (j < 8) × (is_section (system_of t.now) (lock_row t.now.tasks.now i j) ≡ true) × (240 ≤ length rows.old) }
    ensures { result ≡ wait_answer (system_of t.now) (task_row t.now.tasks.now i) (lock_row t.now.tasks.now i j) }
{
    let v = t.task_cell(i, 0);
    let limit = t.task_cell(i, 2);
    let m = t.lock_cell(i, j, 0);
    times_waits::wait_answer(t, rf, rows, v, m, limit)
}

// Writes the answer of place k; waits of one task on one mutex are searched once.
fn put_wait(t: &PlanTables, rf: &[u64], rows: &mut [u64], wa: &mut [u64], k: usize)
    requires { ResponsesOf t.now rf.now × (t.now.plan.tasks * 8 ≤ length rf.now) × (k < t.now.plan.tasks * 8) × (240 ≤ length rows.old) × (t.now.plan.tasks * 24 ≤ length wa.old) × ((q : ℕ) → q < k → row_in wa.old q ≡ place_at (system_of t.now) t.now.tasks.now q) }
    ensures { wa.new ≡ pushed wa.old k (place_at (system_of t.now) t.now.tasks.now k) }
{
    let i = k / 8;
    let j = k % 8;
    if !is_section(t, i, j) {
        search_rows::push_row(wa, k, 0, 0, 0);
        return;
    }
    let e = answers_copies::same_before(t, i, j);
    if e < j {
        answers_copies::copy_answer(wa, i * 8 + e, k);
        return;
    }
    let a = wait_at(t, rf, rows, i, j);
    put_answer(wa, k, a);
}

// Fills the answers of the waits.
pub fn fill_waits(t: &PlanTables, rf: &[u64], rows: &mut [u64], wa: &mut [u64])
    requires { ResponsesOf t.now rf.now × (t.now.plan.tasks * 8 ≤ length rf.now) × (240 ≤ length rows.old) × (t.now.plan.tasks * 24 ≤ length wa.old) }
    ensures { (wa.new ≡ over (wait_answers (system_of t.now)) wa.old) × Places (system_of t.now) t.now.tasks.now (t.now.plan.tasks * 8) wa.new }
{
    let n = t.plan.tasks * 8;
    for k in 0..n {
        put_wait(t, rf, rows, wa, k);
    }
}
