// The lock board over lent tables: any tables and any board get an answer. What it is stands in specs/Entered.
#![tactic(auto)]

ghost use Rattle.std.specs.Prelude.{◌≤◌, ◌≡◌, true, length, Ok, Err};
ghost use Rattle.plan_tables.specs.Given.{is_given};
ghost use Rattle.plan_tables.specs.Layout.{lent};
ghost use Rattle.board_rules.specs.View.{facts_in};
ghost use Rattle.board_rules.specs.Board as board;
ghost use Rattle.board_rules.specs.declared.Event as Event;
ghost use Rattle.board_tables.specs.Entered.{facts_from, no_board, fresh_for, step_for};
ghost use Rattle.board_rules.specs.PlanViews.{facts};

use board_rules::{Board, BoardAnswer, Event, Outcome, PlanView};
use figures_cells::PlanTables;
use plan::Refusal;
use plan_tables::PlanRecord;

// Whether there is a board at first, and the board: a board of zeros where it is refused.
#[derive(Clone, Copy)]
pub struct FreshBoard {
    pub answer: Result<(), Refusal>,
    pub board: Board,
}

// A board of zeros.
fn no_board() -> Board
    ensures { result ≡ no_board }
{
    Board {
        left: [0u64; 16],
        over: [0u64; 16],
        stopped: [false; 16],
        holder: [0u16; 32],
        waits: [0u8; 128],
    }
}

// The view that is written says the facts of the plan in the tables.
fn fill_facts(r: PlanRecord, vt: &[u64], mt: &[u64], ot: &[u64], ts: &[u64], view: &mut [u64])
    requires { (is_given r (lent vt.now mt.now ot.now ts.now) ≡ true) × (4320 ≤ length view.old) }
    ensures { facts_in r.policy r.overrun view.new ≡ facts_from r (lent vt.now mt.now ot.now ts.now) }
{
    let t = PlanTables {
        plan: r,
        vcpus: vt,
        mutexes: mt,
        tasks: ts,
    };
    board_views::fill_view(&t, view)
}

// The board at first, of tables that an accepted plan gives.
fn first_board(r: PlanRecord, vt: &[u64], mt: &[u64], ot: &[u64], ts: &[u64]) -> Board
    requires { is_given r (lent vt.now mt.now ot.now ts.now) ≡ true }
    ensures { result ≡ board.fresh (facts_from r (lent vt.now mt.now ot.now ts.now)) }
{
    let mut view = [0u64; 4320];
    fill_facts(r, vt, mt, ot, ts, &mut view);
    Board::fresh(&view)
}

// Made: the board at first is b.
fn made(b: Board) -> FreshBoard
    ensures { result ≡ record { answer = Ok tt; board = b } }
{
    FreshBoard {
        answer: Ok(()),
        board: b,
    }
}

// Refused: b stands where no board is made.
fn not_made(b: Board, k: Refusal) -> FreshBoard
    ensures { result ≡ record { answer = Err k; board = b } }
{
    FreshBoard {
        answer: Err(k),
        board: b,
    }
}

// The board at first: 9 where no accepted plan gives the tables.
pub fn fresh(r: PlanRecord, vt: &[u64], mt: &[u64], ot: &[u64], ts: &[u64]) -> FreshBoard
    ensures { result ≡ fresh_for r (lent vt.now mt.now ot.now ts.now) }
{
    if given_test::is_given(r, vt, mt, ot, ts) {
        return made(first_board(r, vt, mt, ot, ts));
    }
    not_made(no_board(), Refusal::Foreign)
}

// One event, after the test of the board for 9.
fn step_tested(b: Board, plan: &PlanView, e: Event) -> Outcome
    ensures { result ≡ board.step_on (facts plan.now) b e }
{
    if b.good(plan) {
        return b.step_on(plan, e);
    }
    b.refuse(Refusal::Foreign)
}

// One event, over tables that an accepted plan gives.
fn step_given(
    b: Board,
    r: PlanRecord,
    vt: &[u64],
    mt: &[u64],
    ot: &[u64],
    ts: &[u64],
    e: Event,
) -> Outcome
    requires { is_given r (lent vt.now mt.now ot.now ts.now) ≡ true }
    ensures { result ≡ board.step_on (facts_from r (lent vt.now mt.now ot.now ts.now)) b e }
{
    let mut view = [0u64; 4320];
    fill_facts(r, vt, mt, ot, ts, &mut view);
    let plan = PlanView {
        policy: r.policy,
        overrun: r.overrun,
        view: &view,
    };
    step_tested(b, &plan, e)
}

// One event: 9 for the tables, 9 for the board, then its own refusals; where it is refused, the board as it was.
pub fn step(
    b: Board,
    r: PlanRecord,
    vt: &[u64],
    mt: &[u64],
    ot: &[u64],
    ts: &[u64],
    e: Event,
) -> Outcome
    ensures { result ≡ step_for r (lent vt.now mt.now ot.now ts.now) b e }
{
    if given_test::is_given(r, vt, mt, ot, ts) {
        return step_given(b, r, vt, mt, ot, ts, e);
    }
    b.refuse(Refusal::Foreign)
}

// `ask v n m`
pub fn ask(
    b: Board,
    r: PlanRecord,
    vt: &[u64],
    mt: &[u64],
    ot: &[u64],
    ts: &[u64],
    v: u64,
    n: u64,
    m: u64,
) -> Outcome
    ensures { result ≡ step_for r (lent vt.now mt.now ot.now ts.now) b (Event.Ask v n m) }
{
    step(b, r, vt, mt, ot, ts, Event::Ask { v, n, m })
}

// `free v n m`
pub fn free(
    b: Board,
    r: PlanRecord,
    vt: &[u64],
    mt: &[u64],
    ot: &[u64],
    ts: &[u64],
    v: u64,
    n: u64,
    m: u64,
) -> Outcome
    ensures { result ≡ step_for r (lent vt.now mt.now ot.now ts.now) b (Event.Free v n m) }
{
    step(b, r, vt, mt, ot, ts, Event::Free { v, n, m })
}

// `use v t` (the language keeps the word)
pub fn use_ticks(
    b: Board,
    r: PlanRecord,
    vt: &[u64],
    mt: &[u64],
    ot: &[u64],
    ts: &[u64],
    v: u64,
    t: u64,
) -> Outcome
    ensures { result ≡ step_for r (lent vt.now mt.now ot.now ts.now) b (Event.Use v t) }
{
    step(b, r, vt, mt, ot, ts, Event::Use { v, t })
}

// `top v`
pub fn top(
    b: Board,
    r: PlanRecord,
    vt: &[u64],
    mt: &[u64],
    ot: &[u64],
    ts: &[u64],
    v: u64,
) -> Outcome
    ensures { result ≡ step_for r (lent vt.now mt.now ot.now ts.now) b (Event.Top v) }
{
    step(b, r, vt, mt, ot, ts, Event::Top { v })
}

// `show v n`, which only reads the board
pub fn show(
    b: Board,
    r: PlanRecord,
    vt: &[u64],
    mt: &[u64],
    ot: &[u64],
    ts: &[u64],
    v: u64,
    n: u64,
) -> BoardAnswer
    ensures { result ≡ (step_for r (lent vt.now mt.now ot.now ts.now) b (Event.Show v n)).answer }
{
    let o = step(b, r, vt, mt, ot, ts, Event::Show { v, n });
    o.answer
}
