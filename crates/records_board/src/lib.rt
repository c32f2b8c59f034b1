// The board for tables with tasks as a lent slice of records: the records' numbers are loaded, and the covered functions over numbers answer.
#![tactic(auto)]

ghost use Rattle.std.specs.Prelude.{◌≡◌, ◌≤◌, length, take};
ghost use Rattle.plan_tables.specs.Layout.{lent};
ghost use Rattle.board_tables.specs.Entered.{fresh_for, step_for};
ghost use Rattle.records.specs.Sheet.{tables_of};

use board_rules::{Board, Event, Outcome};
use board_tables::FreshBoard;
use plan::MOST_TASKS;
use plan_tables::PlanRecord;
use records::Task;

// The board at first, on the first c numbers of the rows.
fn fresh_in(r: PlanRecord, vt: &[u64], mt: &[u64], ot: &[u64], rows: &[u64], c: usize) -> FreshBoard
    requires { c ≤ length rows.now }
    ensures { result ≡ fresh_for r (lent vt.now mt.now ot.now (take c rows.now)) }
{
    board_tables::fresh(r, vt, mt, ot, &rows[..c])
}

// The board at first: 9 where no accepted plan gives the tables.
pub fn fresh(r: PlanRecord, vt: &[u64], mt: &[u64], ot: &[u64], tasks: &[Task]) -> FreshBoard
    ensures { result ≡ fresh_for r (tables_of vt.now mt.now ot.now tasks.now) }
{
    let mut rows = records::no_rows();
    let c = records::load(tasks, &mut rows, MOST_TASKS);
    fresh_in(r, vt, mt, ot, &rows, c)
}

// One event, on the first c numbers of the rows.
fn step_in(
    b: Board,
    r: PlanRecord,
    vt: &[u64],
    mt: &[u64],
    ot: &[u64],
    rows: &[u64],
    e: Event,
    c: usize,
) -> Outcome
    requires { c ≤ length rows.now }
    ensures { result ≡ step_for r (lent vt.now mt.now ot.now (take c rows.now)) b e }
{
    board_tables::step(b, r, vt, mt, ot, &rows[..c], e)
}

// One event: 9 for the tables, 9 for the board, then its own refusals; where it is refused, the board as it was.
pub fn step(
    b: Board,
    r: PlanRecord,
    vt: &[u64],
    mt: &[u64],
    ot: &[u64],
    tasks: &[Task],
    e: Event,
) -> Outcome
    ensures { result ≡ step_for r (tables_of vt.now mt.now ot.now tasks.now) b e }
{
    let mut rows = records::no_rows();
    let c = records::load(tasks, &mut rows, MOST_TASKS);
    step_in(b, r, vt, mt, ot, &rows, e, c)
}
