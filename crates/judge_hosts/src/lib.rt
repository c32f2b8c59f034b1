// What is wrong with a task on a VCPU, by what is declared and how many there are; and which mutexes it may lock. What it means stands in specs/Coded of `judge_coded`.
#![tactic(auto)]

ghost use Rattle.std.specs.Prelude.{◌≡◌, get_or};
ghost use Rattle.judge_coded.specs.Coded as coded;

use judge_coded::{GLOBAL, Seen, slot};
use plan::{MAX_TASKS, MAX_V, Refusal, ensure, within};

// A byte as a number.
fn wide(x: u8) -> u64
    ensures { result ≡ x }
{
    x as u64
}

// Element i; 0 past the end.
pub fn at(s: &[u8], i: u64) -> u64
    ensures { result ≡ get_or s.now i 0 }
{
    wide(s.get(i as usize).copied().unwrap_or(0))
}

// May a task of VCPU v of this guest lock m: is it local to v, or a global one opened to the guest?
pub fn reached(opens: &[u8], guest: u64, v: u64, owner: u64, m: u64) -> bool
    ensures { result ≡ coded.reached_by opens.now guest v owner m }
{
    let near = within(owner, 1, MAX_V) & (owner == v);
    let open = at(opens, slot(m, guest));
    near | ((owner == GLOBAL) & (open == 1))
}

// A task of VCPU v, by what is declared and how many there are.
#[tactic(auto, unfolding(plan::specs::Refusals::unless, judge_coded::specs::Coded::host_fault))]
pub fn host_fault(t: Seen, v: u64) -> Result<(), Refusal>
    ensures { result ≡ coded.host_fault t v }
{
    let host = at(&t.guests, v);
    ensure(1 <= host, Refusal::Missing)?;
    ensure(host == t.guest, Refusal::Outside)?;
    ensure(t.tasks < MAX_TASKS, Refusal::TooMany)
}
