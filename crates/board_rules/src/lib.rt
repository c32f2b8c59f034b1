// The lock board. What its types mean, and the rules of its events, stand in specs/.
#![tactic(auto)]

ghost use Rattle.std.specs.Prelude.{◌≡◌, Bool, false, List, ℕ, ◌≤◌, length, Ok};
ghost use Rattle.plan.specs.declared.Policy.{Policy};
ghost use Rattle.plan.specs.declared.OverrunChoice.{OverrunChoice};
ghost use Rattle.board_seats.specs.Seats.{is_global};
ghost use Rattle.board_reserves.specs.Supplies.{free_fault_at};
ghost use Rattle.board_turns.specs.Turns.{waiter_v};
ghost use Rattle.board_rules.specs.View.{facts_in};
ghost use Rattle.board_rules.specs.Settle.{Marked};
ghost use Rattle.board_rules.specs.SettleEvents.{OwnHeld};
ghost use Rattle.board_rules.specs.Lent.{board_of, outcome_of};
ghost use Rattle.board_rules.specs.Board.{refused, used, topped, step, ask_fault, may_have, handed_to, granted_local, next_of, freed, freed_global, freed_local, fresh, good};
ghost use Rattle.board_rules.specs.PlanViews.{facts};

use board_seats::{both, sub};
use plan::{OverrunChoice, Policy, Refusal};

// A plan as a board sees it: its policy, its overrun choice, and its view, the numbers of its facts.
#[derive(Clone, Copy)]
pub struct PlanView<'a> {
    pub policy: Policy,
    pub overrun: OverrunChoice,
    pub view: &'a [u64],
}

// Per VCPU v, at place v - 1: budget left, overrun left, the stopped mark. Per mutex m, at place m - 1: the seat of its holder, 0 where it is free.
// Per seat, at place seat - 1: the mutex that the task waits for, 0 for none. The seat of task (v, n) is (v - 1) * 8 + n.
#[derive(Clone, Copy)]
pub struct Board {
    pub left: [u64; 16],
    pub over: [u64; 16],
    pub stopped: [bool; 16],
    pub holder: [u16; 32],
    pub waits: [u8; 128],
}

// An event of the board.
#[derive(Clone, Copy)]
pub enum Event {
    Ask { v: u64, n: u64, m: u64 },
    Free { v: u64, n: u64, m: u64 },
    Use { v: u64, t: u64 },
    Top { v: u64 },
    Show { v: u64, n: u64 },
}

// The task to which a freed mutex, or the mutex of a local waiter, goes.
#[derive(Clone, Copy)]
pub enum Next {
    Nobody,
    To { v: u64, n: u64 },
}

// The answer to an event.
#[derive(Clone, Copy)]
pub enum BoardAnswer {
    Granted,
    Waits,
    Freed(Next),
    Left { b: u64, o: u64 },
    Shows { task: u64, vcpu: u64 },
    Refused(Refusal),
}

// The answer to an event, and the board after it.
#[derive(Clone, Copy)]
pub struct Outcome {
    pub answer: BoardAnswer,
    pub board: Board,
}

// t ticks of v: the budget first, then the overrun.
fn used(
    policy: Policy,
    view: &[u64],
    left: &mut [u64],
    over: &mut [u64],
    stopped: &mut [bool],
    holder: &[u16],
    v: u64,
    t: u64,
) -> BoardAnswer
    requires { (1 ≤ v) × (v ≤ 16) × (length left.old ≡ 16) × (length over.old ≡ 16) × (length stopped.old ≡ 16) }
    ensures { (c : OverrunChoice) (ws : List ℕ) → Marked (facts_in policy c view.now) (board_of left.old over.old stopped.old holder.now ws) → outcome_of result (board_of left.new over.new stopped.new holder.now ws) ≡ used (facts_in policy c view.now) (board_of left.old over.old stopped.old holder.now ws) v t }
{
    let i = sub(v, 1) as usize;
    let b = board_reserves::budget_after(left, v, t);
    let o = board_reserves::overrun_after(left, over, v, t);
    left[i] = b;
    over[i] = o;
    board_puts::settle(policy, view, left, stopped, holder, v);
    BoardAnswer::Left { b, o }
}

// Budget and overrun of v full, its mark cleared: no mark is due then.
fn topped(
    view: &[u64],
    left: &mut [u64],
    over: &mut [u64],
    stopped: &mut [bool],
    v: u64,
) -> BoardAnswer
    requires { (1 ≤ v) × (v ≤ 16) × (length left.old ≡ 16) × (length over.old ≡ 16) × (length stopped.old ≡ 16) }
    ensures { (p : Policy) (c : OverrunChoice) (hs : List ℕ) (ws : List ℕ) → Marked (facts_in p c view.now) (board_of left.old over.old stopped.old hs ws) → outcome_of result (board_of left.new over.new stopped.new hs ws) ≡ topped (facts_in p c view.now) (board_of left.old over.old stopped.old hs ws) v }
{
    let i = sub(v, 1) as usize;
    let b = board_seats::budget(view, v);
    let o = board_seats::overrun(view, v);
    left[i] = b;
    over[i] = o;
    stopped[i] = false;
    BoardAnswer::Left { b, o }
}

// The task (v, n), or nobody where n is 0.
fn next_of(v: u64, n: u64) -> Next
    ensures { result ≡ next_of v n }
{
    if n == 0 {
        Next::Nobody
    } else {
        Next::To { v, n }
    }
}

// m goes to task (v, n), who then waits no more, or is free where n is 0.
fn hand(holder: &mut [u16], waits: &mut [u8], m: u64, v: u64, n: u64)
    requires { (v ≤ 16) × (n ≤ 8) × (length waits.old ≡ 128) }
    ensures { (ls : List ℕ) (os : List ℕ) (ss : List Bool) → (board_of ls os ss holder.new waits.new) ≡ handed_to (board_of ls os ss holder.old waits.old) m (next_of v n) }
{
    if n == 0 {
        board_puts::put_holder(holder, m, 0);
        return;
    }
    board_puts::put_holder(holder, m, board_seats::seat(v, n));
    board_puts::put_wait(waits, v, n, 0);
}

// The highest VCPU that has a waiter for m, 0 for none: the rows are built only where somebody waits.
fn waiter(waits: &[u8], m: u64) -> u64
    requires { (m ≤ 32) × (length waits.now ≡ 128) }
    ensures { (result ≡ waiter_v waits.now m) × (result ≤ 16) }
{
    if board_turns::awaited(waits, m as u8) {
        return board_turns::waiter_v(waits, m);
    }
    0
}

// A global mutex of v goes to the waiter with the highest VCPU, then the highest n.
fn freed_global(
    policy: Policy,
    view: &[u64],
    left: &[u64],
    stopped: &mut [bool],
    holder: &mut [u16],
    waits: &mut [u8],
    v: u64,
    m: u64,
) -> BoardAnswer
    requires { (1 ≤ v) × (v ≤ 16) × (1 ≤ m) × (m ≤ 32) × (length stopped.old ≡ 16) × (length waits.old ≡ 128) }
    ensures { (c : OverrunChoice) (os : List ℕ) → OwnHeld (board_of left.now os stopped.old holder.old waits.old) v m → Marked (facts_in policy c view.now) (board_of left.now os stopped.old holder.old waits.old) → outcome_of result (board_of left.now os stopped.new holder.new waits.new) ≡ freed_global (facts_in policy c view.now) (board_of left.now os stopped.old holder.old waits.old) m }
{
    let w = waiter(waits, m);
    let n = board_turns::waiter_n(waits, w, m);
    hand(holder, waits, m, w, n);
    board_puts::settle(policy, view, left, stopped, holder, v);
    BoardAnswer::Freed(next_of(w, n))
}

// Task (v, n) gets the mutex that it waits for; nobody where n is 0.
fn grant(holder: &mut [u16], waits: &mut [u8], v: u64, n: u64)
    requires { (v ≤ 16) × (n ≤ 8) × (length waits.old ≡ 128) }
    ensures { (ls : List ℕ) (os : List ℕ) (ss : List Bool) → (board_of ls os ss holder.new waits.new) ≡ granted_local (board_of ls os ss holder.old waits.old) (next_of v n) }
{
    if n == 0 {
        return;
    }
    let m = board_seats::wait(waits, v, n);
    hand(holder, waits, m, v, n);
}

// After a local mutex, the highest local waiter is granted its mutex if it passes the test now.
fn freed_local(
    policy: Policy,
    view: &[u64],
    left: &[u64],
    stopped: &mut [bool],
    holder: &mut [u16],
    waits: &mut [u8],
    v: u64,
    m: u64,
) -> BoardAnswer
    requires { (1 ≤ v) × (v ≤ 16) × (1 ≤ m) × (m ≤ 32) × (is_global view.now m ≡ false) × (length stopped.old ≡ 16) × (length waits.old ≡ 128) }
    ensures { (c : OverrunChoice) (os : List ℕ) → Marked (facts_in policy c view.now) (board_of left.now os stopped.old holder.old waits.old) → outcome_of result (board_of left.now os stopped.new holder.new waits.new) ≡ freed_local (facts_in policy c view.now) (board_of left.now os stopped.old holder.old waits.old) v m }
{
    board_puts::put_holder(holder, m, 0);
    let n = board_turns::next_local(view, holder, waits, v);
    grant(holder, waits, v, n);
    board_puts::settle(policy, view, left, stopped, holder, v);
    BoardAnswer::Freed(next_of(v, n))
}

// m of v is freed: a global mutex, or a local one.
fn freed(
    policy: Policy,
    view: &[u64],
    left: &[u64],
    stopped: &mut [bool],
    holder: &mut [u16],
    waits: &mut [u8],
    v: u64,
    m: u64,
) -> BoardAnswer
    requires { (1 ≤ v) × (v ≤ 16) × (1 ≤ m) × (m ≤ 32) × (length stopped.old ≡ 16) × (length waits.old ≡ 128) }
    ensures { (c : OverrunChoice) (os : List ℕ) → OwnHeld (board_of left.now os stopped.old holder.old waits.old) v m → Marked (facts_in policy c view.now) (board_of left.now os stopped.old holder.old waits.old) → outcome_of result (board_of left.now os stopped.new holder.new waits.new) ≡ freed (facts_in policy c view.now) (board_of left.now os stopped.old holder.old waits.old) v m }
{
    if board_seats::is_global(view, m) {
        return freed_global(policy, view, left, stopped, holder, waits, v, m);
    }
    freed_local(policy, view, left, stopped, holder, waits, v, m)
}

impl Board {
    // `use v t` on lent arrays: the answer, and the arrays as the event leaves them.
    pub fn use_in(
        plan: &PlanView,
        left: &mut [u64],
        over: &mut [u64],
        stopped: &mut [bool],
        holder: &[u16],
        v: u64,
        t: u64,
    ) -> BoardAnswer
        requires { (length left.old ≡ 16) × (length over.old ≡ 16) × (length stopped.old ≡ 16) × ((ws : List ℕ) → Marked (facts plan.now) (board_of left.old over.old stopped.old holder.now ws)) }
        ensures { (ws : List ℕ) → outcome_of result (board_of left.new over.new stopped.new holder.now ws) ≡ step (facts plan.now) (board_of left.old over.old stopped.old holder.now ws) (Event.Use v t) }
    {
        let fault = board_puts::supply::use_fault(
            plan.overrun,
            plan.view,
            left,
            over,
            stopped,
            holder,
            v,
            t,
        );
        match fault {
            Ok(()) => used(plan.policy, plan.view, left, over, stopped, holder, v, t),
            Err(k) => BoardAnswer::Refused(k),
        }
    }

    // `top v` on lent arrays: budget and overrun of v full, its mark cleared.
    pub fn top_in(
        plan: &PlanView,
        left: &mut [u64],
        over: &mut [u64],
        stopped: &mut [bool],
        holder: &[u16],
        v: u64,
    ) -> BoardAnswer
        requires { (length left.old ≡ 16) × (length over.old ≡ 16) × (length stopped.old ≡ 16) × ((ws : List ℕ) → Marked (facts plan.now) (board_of left.old over.old stopped.old holder.now ws)) }
        ensures { (ws : List ℕ) → outcome_of result (board_of left.new over.new stopped.new holder.now ws) ≡ step (facts plan.now) (board_of left.old over.old stopped.old holder.now ws) (Event.Top v) }
    {
        if !board_seats::has_vcpu(plan.view, v) {
            return BoardAnswer::Refused(Refusal::Unknown);
        }
        topped(plan.view, left, over, stopped, v)
    }

    // `ask v n m` on lent arrays, of an ask that has no fault: m goes to task (v, n) where it may have it, else the task waits.
    pub fn ask_sure(
        plan: &PlanView,
        left: &[u64],
        over: &[u64],
        stopped: &[bool],
        holder: &mut [u16],
        waits: &mut [u8],
        v: u64,
        n: u64,
        m: u64,
        may: bool,
    ) -> BoardAnswer
        requires stopped_len { (length stopped.now ≡ 16) × (length waits.old ≡ 128) × Marked (facts plan.now) (board_of left.now over.now stopped.now holder.old waits.old) }
        requires m_value { (ask_fault (facts plan.now) (board_of left.now over.now stopped.now holder.old waits.old) v n m ≡ Ok tt) × (may ≡ may_have (facts plan.now) (board_of left.now over.now stopped.now holder.old waits.old) v n m) }
        ensures { outcome_of result (board_of left.now over.now stopped.now holder.new waits.new) ≡ step (facts plan.now) (board_of left.now over.now stopped.now holder.old waits.old) (Event.Ask v n m) }
    {
        if may {
            board_puts::put_holder(holder, m, board_seats::seat(v, n));
            return BoardAnswer::Granted;
        }
        board_puts::put_wait(waits, v, n, m);
        BoardAnswer::Waits
    }

    // `ask v n m` on lent arrays: no mark changes, where none is due and lacking.
    pub fn ask_in(
        plan: &PlanView,
        left: &[u64],
        over: &[u64],
        stopped: &[bool],
        holder: &mut [u16],
        waits: &mut [u8],
        v: u64,
        n: u64,
        m: u64,
    ) -> BoardAnswer
        requires { (length stopped.now ≡ 16) × (length waits.old ≡ 128) × Marked (facts plan.now) (board_of left.now over.now stopped.now holder.old waits.old) }
        ensures { outcome_of result (board_of left.now over.now stopped.now holder.new waits.new) ≡ step (facts plan.now) (board_of left.now over.now stopped.now holder.old waits.old) (Event.Ask v n m) }
    {
        let fault = board_puts::supply::ask_fault(
            plan.overrun,
            plan.view,
            left,
            over,
            stopped,
            holder,
            waits,
            v,
            n,
            m,
        );
        match fault {
            Ok(()) => {
                let may = board_turns::may_have(plan.view, holder, v, n, m);
                Board::ask_sure(plan, left, over, stopped, holder, waits, v, n, m, may)
            }
            Err(k) => BoardAnswer::Refused(k),
        }
    }

    // `free v n m` on lent arrays, of a free that has no fault: m goes to who is next.
    pub fn free_sure(
        plan: &PlanView,
        left: &[u64],
        stopped: &mut [bool],
        holder: &mut [u16],
        waits: &mut [u8],
        v: u64,
        n: u64,
        m: u64,
    ) -> BoardAnswer
        requires stopped_len { (length stopped.old ≡ 16) × (length waits.old ≡ 128) × ((os : List ℕ) → Marked (facts plan.now) (board_of left.now os stopped.old holder.old waits.old)) }
        requires m_value { free_fault_at plan.now.view.now holder.old v n m ≡ Ok tt }
        ensures { (os : List ℕ) → outcome_of result (board_of left.now os stopped.new holder.new waits.new) ≡ step (facts plan.now) (board_of left.now os stopped.old holder.old waits.old) (Event.Free v n m) }
    {
        freed(plan.policy, plan.view, left, stopped, holder, waits, v, m)
    }

    // `free v n m` on lent arrays: the waiting marks are walked only where somebody waits for m.
    pub fn free_in(
        plan: &PlanView,
        left: &[u64],
        stopped: &mut [bool],
        holder: &mut [u16],
        waits: &mut [u8],
        v: u64,
        n: u64,
        m: u64,
    ) -> BoardAnswer
        requires { (length stopped.old ≡ 16) × (length waits.old ≡ 128) × ((os : List ℕ) → Marked (facts plan.now) (board_of left.now os stopped.old holder.old waits.old)) }
        ensures { (os : List ℕ) → outcome_of result (board_of left.now os stopped.new holder.new waits.new) ≡ step (facts plan.now) (board_of left.now os stopped.old holder.old waits.old) (Event.Free v n m) }
    {
        let fault = board_puts::supply::free_fault(plan.view, holder, v, n, m);
        match fault {
            Ok(()) => Board::free_sure(plan, left, stopped, holder, waits, v, n, m),
            Err(k) => BoardAnswer::Refused(k),
        }
    }
}

impl Board {
    // Refused: the board is as it was.
    pub fn refuse(self, k: Refusal) -> Outcome
        ensures { result ≡ refused self k }
    {
        Outcome {
            answer: BoardAnswer::Refused(k),
            board: self,
        }
    }

    // `use v t`
    pub fn use_on(self, plan: &PlanView, v: u64, t: u64) -> Outcome
        requires { Marked (facts plan.now) self }
        ensures { result ≡ step (facts plan.now) self (Event.Use v t) }
    {
        let mut board = self;
        let answer = Board::use_in(
            plan,
            &mut board.left,
            &mut board.over,
            &mut board.stopped,
            &board.holder,
            v,
            t,
        );
        Outcome { answer, board }
    }

    // `top v`
    pub fn top_on(self, plan: &PlanView, v: u64) -> Outcome
        requires { Marked (facts plan.now) self }
        ensures { result ≡ step (facts plan.now) self (Event.Top v) }
    {
        let mut board = self;
        let answer = Board::top_in(
            plan,
            &mut board.left,
            &mut board.over,
            &mut board.stopped,
            &board.holder,
            v,
        );
        Outcome { answer, board }
    }

    // `ask v n m`
    pub fn ask_on(self, plan: &PlanView, v: u64, n: u64, m: u64) -> Outcome
        requires { Marked (facts plan.now) self }
        ensures { result ≡ step (facts plan.now) self (Event.Ask v n m) }
    {
        let mut board = self;
        let answer = Board::ask_in(
            plan,
            &board.left,
            &board.over,
            &board.stopped,
            &mut board.holder,
            &mut board.waits,
            v,
            n,
            m,
        );
        Outcome { answer, board }
    }

    // `free v n m`
    pub fn free_on(self, plan: &PlanView, v: u64, n: u64, m: u64) -> Outcome
        requires { Marked (facts plan.now) self }
        ensures { result ≡ step (facts plan.now) self (Event.Free v n m) }
    {
        let mut board = self;
        let answer = Board::free_in(
            plan,
            &board.left,
            &mut board.stopped,
            &mut board.holder,
            &mut board.waits,
            v,
            n,
            m,
        );
        Outcome { answer, board }
    }

    // `show v n`
    pub fn show_on(self, plan: &PlanView, v: u64, n: u64) -> BoardAnswer
        ensures { result ≡ (step (facts plan.now) self (Event.Show v n)).answer }
    {
        if !board_seats::has_task(plan.view, v, n) {
            return BoardAnswer::Refused(Refusal::Unknown);
        }
        let task = board_turns::task_priority(plan.view, &self.holder, &self.waits, v, n);
        let vcpu = board_turns::vcpu_priority(plan.view, &self.holder, v);
        BoardAnswer::Shows { task, vcpu }
    }

    // The board breaks none of the conditions.
    pub fn good(self, plan: &PlanView) -> bool
        ensures { result ≡ good (facts plan.now) self }
    {
        let vcpus = board_puts::supply::vcpus_good(
            plan.policy,
            plan.view,
            &self.left,
            &self.over,
            &self.stopped,
            &self.holder,
        );
        let tasks = board_good::all_tasks_good(plan.view, &self.holder, &self.waits);
        both(vcpus, both(tasks, board_good::seats_good(&self.holder)))
    }

    // The board at first.
    pub fn fresh(view: &[u64]) -> Board
        ensures { (p : Policy) (o : OverrunChoice) → result ≡ fresh (facts_in p o view.now) }
    {
        Board {
            left: board_good::budgets(view),
            over: board_good::overruns(view),
            stopped: [false; 16],
            holder: [0; 32],
            waits: [0; 128],
        }
    }

    // One event.
    pub fn step_on(self, plan: &PlanView, e: Event) -> Outcome
        requires { Marked (facts plan.now) self }
        ensures { result ≡ step (facts plan.now) self e }
    {
        match e {
            Event::Ask { v, n, m } => self.ask_on(plan, v, n, m),
            Event::Free { v, n, m } => self.free_on(plan, v, n, m),
            Event::Use { v, t } => self.use_on(plan, v, t),
            Event::Top { v } => self.top_on(plan, v),
            Event::Show { v, n } => self.shown(self.show_on(plan, v, n)),
        }
    }

    fn shown(self, a: BoardAnswer) -> Outcome
        ensures { result ≡ record { answer = a; board = self } }
    {
        Outcome {
            answer: a,
            board: self,
        }
    }
}
