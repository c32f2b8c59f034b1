// What is replied to a question about tables of numbers: the covered functions over numbers answer. What it is stands in specs/Replies.
#![tactic(auto)]

ghost use Rattle.std.specs.Prelude.{◌≡◌};
ghost use Rattle.plan_tables.specs.Layout.{lent};
ghost use Rattle.records_reply.specs.Replies.{reply_to};

use clock_rules::RunAnswer;
use figures::TaskAnswer;
use plan::Refusal;
use plan_tables::PlanRecord;
use search::Answer;

// What may be asked of lent tables: the test for 9, how late a VCPU can finish, how long task (v, n) can wait at a lock place, how late it can finish, the response of its global section at a lock place, and the run to horizon h on a clock.
#[derive(Clone, Copy)]
pub enum Question {
    IsGiven,
    VcpuTime { v: u64 },
    WaitTime { v: u64, n: u64, place: u64 },
    TaskTime { v: u64, n: u64 },
    SectionResponse { v: u64, n: u64, place: u64 },
    RunTo { h: u64 },
}

// What is replied.
#[derive(Clone, Copy)]
pub enum Replied {
    Given(bool),
    Row(Result<Answer, Refusal>),
    TaskRow(Result<TaskAnswer, Refusal>),
    Figure(Result<u64, Refusal>),
    Run(RunAnswer),
}

// The reply, on rows of numbers.
pub fn reply_on(
    r: PlanRecord,
    vt: &[u64],
    mt: &[u64],
    ot: &[u64],
    ts: &[u64],
    q: Question,
) -> Replied
    ensures { result ≡ reply_to r (lent vt.now mt.now ot.now ts.now) q }
{
    match q {
        Question::IsGiven => Replied::Given(given_test::is_given(r, vt, mt, ot, ts)),
        Question::VcpuTime { v } => Replied::Row(answers_rows::vcpu_time(r, vt, mt, ot, ts, v)),
        Question::WaitTime { v, n, place } => {
            Replied::Row(answers_rows::wait_time(r, vt, mt, ot, ts, v, n, place))
        }
        Question::TaskTime { v, n } => Replied::TaskRow(answers_tasks::task_time(
            r, vt, mt, ot, ts, v, n,
        )),
        Question::SectionResponse { v, n, place } => {
            Replied::Figure(answers_rows::section_response(r, vt, mt, ot, ts, v, n, place))
        }
        Question::RunTo { h } => Replied::Run(clock_tables::run_of(r, vt, mt, ot, ts, h)),
    }
}
