// Any bytes into lent tables whose tasks are a slice of records: the plan is read into rows of numbers, and these are copied into the records. What is answered and left stands in specs/After.
#![tactic(auto)]

ghost use Rattle.std.specs.Prelude.{◌≡◌, ◌*◌, ◌≤◌, length};
ghost use Rattle.plan.specs.Limits.{most_tasks};
ghost use Rattle.plan_tables.specs.Layout.{lent, task_width};
ghost use Rattle.read_answer.specs.Into.{plan_answer};
ghost use Rattle.read_fill.specs.Fill.{vcpu_put, mutex_put, open_put, task_put};
ghost use Rattle.read_answer.specs.Judged.{lines_left};
ghost use Rattle.read_answer.specs.Ample.{Ample};
ghost use Rattle.records_read.specs.After.{count_of, ReadIn, ReadOut};

use plan::Complaint;
use plan_tables::PlanRecord;
use records::Task;

// How many records an answer writes.
fn count_of(a: Result<PlanRecord, Complaint>) -> usize
    ensures { result ≡ count_of a }
{
    match a {
        Ok(r) => r.tasks,
        Err(_) => 0,
    }
}

// Reads bytes offered as a plan, with room for n records, and no more than there are places for.
fn read_in(
    src: &[u8],
    vt: &mut [u64],
    mt: &mut [u64],
    ot: &mut [u64],
    rows: &mut [u64],
    n: usize,
) -> Result<PlanRecord, Complaint>
    requires { most_tasks * task_width ≤ length rows.old }
    ensures { ReadIn src.now vt.old mt.old ot.old rows.old n result vt.new mt.new ot.new rows.new }
{
    let k = records::width(records::few(n));
    read_plan::read_plan(src, vt, mt, ot, &mut rows[..k])
}

// Reads bytes offered as a plan into lent tables. A refusal leaves the tables as they were lent.
pub fn read_plan(
    src: &[u8],
    vt: &mut [u64],
    mt: &mut [u64],
    ot: &mut [u64],
    tasks: &mut [Task],
) -> Result<PlanRecord, Complaint>
    ensures { ReadOut src.now vt.old mt.old ot.old tasks.old result vt.new mt.new ot.new tasks.new }
{
    let mut rows = records::no_rows();
    let a = read_in(src, vt, mt, ot, &mut rows, tasks.len());
    let n = count_of(a);
    records_saved::save(tasks, &rows, n);
    a
}

// Reads bytes offered as a plan into tables of numbers with room for every plan, in one pass, its tasks by way of a table of records. Where the plan is refused, the tables hold the rows of the lines before the first that is refused.
pub fn read_rows(
    src: &[u8],
    vt: &mut [u64],
    mt: &mut [u64],
    ot: &mut [u64],
    rows: &mut [u64],
) -> Result<PlanRecord, Complaint>
    requires { Ample (lent vt.old mt.old ot.old rows.old) }
    ensures value { result ≡ plan_answer src.now (lent vt.old mt.old ot.old rows.old) }
    ensures vt_after { vt.new ≡ lines_left vcpu_put src.now vt.old }
    ensures mt_after { mt.new ≡ lines_left mutex_put src.now mt.old }
    ensures ot_after { ot.new ≡ lines_left open_put src.now ot.old }
    ensures rows_after { rows.new ≡ lines_left task_put src.now rows.old }
{
    let a = read_lines::read_lines(src, vt, mt, ot, rows);
    let n = count_of(a);
    records_saved::all_kept(rows, n);
    a
}
