// The limits of document 01 as code tests them, the types that a plan is made of in code and in definitions alike, and small steps that several crates take. What they mean stands in specs/.
#![tactic(auto)]

ghost use Rattle.std.specs.Prelude.{◌≡◌, max};
ghost use Rattle.plan.specs.Refusals as refusals;
ghost use Rattle.plan.specs.Rules as rules;

// The limits of document 01 (specs/Limits), which contracts tie to their definitions: v 1 to 16.
pub const MAX_V: u64 = 16;

// Guest 1 to 4.
pub const MAX_GUEST: u64 = 4;

// Core 0 to 3.
pub const MAX_CORE: u64 = 3;

// m 1 to 32.
pub const MAX_M: u64 = 32;

// n 1 to 8.
pub const MAX_N: u64 = 8;

// Every period 1 to 1,000,000.
pub const MAX_PERIOD: u64 = 1000000;

// Run 0 to 1,000,000, lock 1 to 1,000,000.
pub const MAX_LENGTH: u64 = 1000000;

// At most 64 tasks in a plan.
pub const MAX_TASKS: u64 = 64;

// Tables and scratch have places for as many tasks, which no plan passes.
pub const MOST_TASKS: usize = 64;

// At most 8 locks in a task.
pub const MAX_LOCKS: u64 = 8;

// A number field that is not written as it should be says this or more.
pub const BAD: u64 = 10000000;

// The bytes that part fields and end lines.
pub const TAB: u8 = 9;

pub const LF: u8 = 10;

// The phase after `end` (specs/Rules).
pub const ENDED: u64 = 10;

// Policy p: a VCPU is a periodic server (P) or a deferrable one (D).
#[derive(Clone, Copy)]
pub enum Policy {
    Periodic,
    Deferrable,
}

// The overrun choice o: overrun (O) or none (N).
#[derive(Clone, Copy)]
pub enum OverrunChoice {
    WithOverrun,
    WithoutOverrun,
}

// `lock m t`, and the `run t` after it.
#[derive(Clone, Copy)]
pub struct Lock {
    pub m: u64,
    pub ticks: u64,
    pub after: u64,
}

// Numbers that say no, 1 to 15 in this order (specs/Refusals).
#[derive(Clone, Copy)]
pub enum Refusal {
    Shape,
    Number,
    Range,
    Order,
    Missing,
    Outside,
    TooMany,
    Room,
    Foreign,
    Unknown,
    Unlisted,
    Asleep,
    Busy,
    NotHolder,
    Supply,
}

// A plan's refusal: its number, the line, and the field of that line, 0 for none.
#[derive(Clone, Copy)]
pub struct Complaint {
    pub number: Refusal,
    pub line: usize,
    pub field: u64,
}

// 8 is given for no line: line 0, field 0.
pub fn no_room() -> Complaint
    ensures { result ≡ refusals.no_room }
{
    Complaint {
        number: Refusal::Room,
        line: 0,
        field: 0,
    }
}

// The kinds of lines: those of a plan in its order, then those of events.
#[derive(Clone, Copy)]
pub enum Kind {
    PlanLine,
    PolicyPO,
    PolicyPN,
    PolicyDO,
    PolicyDN,
    VcpuLine,
    MutexG,
    MutexL,
    OpenLine,
    GuestLine,
    TaskLine,
    RunLine,
    LockLine,
    EndLine,
    AskLine,
    FreeLine,
    UseLine,
    TopLine,
    ShowLine,
}

// `Ok` where the test holds, else the refusal.
#[tactic(auto, unfolding(crate::specs::Refusals::unless))]
pub fn ensure(ok: bool, refusal: Refusal) -> Result<(), Refusal>
    ensures { result ≡ refusals.ensured ok refusal }
{
    if ok { Ok(()) } else { Err(refusal) }
}

// Is x from lo to hi?
pub fn within(x: u64, lo: u64, hi: u64) -> bool
    ensures { result ≡ rules.within x lo hi }
{
    (lo <= x) & (x <= hi)
}

// The larger of two numbers.
pub fn larger(a: u64, b: u64) -> u64
    ensures { result ≡ max a b }
{
    a.max(b)
}
