// The library's function for C that writes a plan, which `exports_write_c` exports in an archive of its own: a plan's bytes from tables whose record is six numbers. The numbers are those of specs/Numbers.
#![tactic(auto)]

ghost use Rattle.std.specs.Prelude.{◌≡◌};
ghost use Rattle.plan_tables.specs.Layout.{lent};
ghost use Rattle.exports_codes.specs.Exported.{exported};
ghost use Rattle.exports_write.specs.Numbers.{policy_from, overrun_from, record_from, is_record, numbers_asked, numbers_left};

use plan::{OverrunChoice, Policy, Refusal};
use plan_tables::{PlanRecord, at};

// 0 is P, 1 is D.
fn policy_from(n: u64) -> Policy
    ensures { result ≡ policy_from n }
{
    if n == 0 {
        Policy::Periodic
    } else {
        Policy::Deferrable
    }
}

// 0 is N, 1 is O.
fn overrun_from(n: u64) -> OverrunChoice
    ensures { result ≡ overrun_from n }
{
    if n == 0 {
        OverrunChoice::WithoutOverrun
    } else {
        OverrunChoice::WithOverrun
    }
}

// Are these the numbers of a record?
fn is_record(numbers: &[u64]) -> bool
    ensures { result ≡ is_record numbers.now }
{
    (numbers.len() == 6) & ((at(numbers, 0) <= 1) & (at(numbers, 1) <= 1))
}

// The record of six numbers.
fn record_from(numbers: &[u64]) -> PlanRecord
    ensures { result ≡ record_from numbers.now }
{
    let policy = policy_from(at(numbers, 0));
    let overrun = overrun_from(at(numbers, 1));
    let vcpus = at(numbers, 2) as usize;
    let mutexes = at(numbers, 3) as usize;
    let opens = at(numbers, 4) as usize;
    let tasks = at(numbers, 5) as usize;
    PlanRecord {
        policy: policy,
        overrun: overrun,
        vcpus: vcpus,
        mutexes: mutexes,
        opens: opens,
        tasks: tasks,
    }
}

// Writes the plan in lent tables into a lent buffer: 9 first, also where the six numbers are no record's, then 8.
fn write_numbers(
    numbers: &[u64],
    vt: &[u64],
    mt: &[u64],
    ot: &[u64],
    ts: &[u64],
    out: &mut [u8],
) -> Result<usize, Refusal>
    ensures value { result ≡ numbers_asked numbers.now (lent vt.now mt.now ot.now ts.now) out.old }
    ensures out_after { out.new ≡ numbers_left numbers.now (lent vt.now mt.now ot.now ts.now) out.old }
{
    if !is_record(numbers) {
        return Err(Refusal::Foreign);
    }
    let r = record_from(numbers);
    write_tables::write_plan(r, vt, mt, ot, ts, out)
}

// The bytes of the plan in lent tables, into a lent buffer: with tables or a record that no accepted plan gives -9, then with too little room -8, and the buffer as it was lent.
pub fn ryefrost_write(
    numbers: &[u64],
    vcpus: &[u64],
    mutexes: &[u64],
    opens: &[u64],
    tasks: &[u64],
    out: &mut [u8],
) -> i64
    ensures value { result ≡ exported (numbers_asked numbers.now (lent vcpus.now mutexes.now opens.now tasks.now) out.old) }
    ensures out_after { out.new ≡ numbers_left numbers.now (lent vcpus.now mutexes.now opens.now tasks.now) out.old }
{
    let a = write_numbers(numbers, vcpus, mutexes, opens, tasks, out);
    exports_codes::exported(a)
}
