// Walks over the mutexes and the tasks of a board, on its arrays and the view of a plan.
#![tactic(auto)]

ghost use Rattle.std.specs.Prelude.{◌≡◌, eqb, ◌≤◌};
ghost use Rattle.laws.specs.Range.{any_to};
ghost use Rattle.board_seats.specs.Seats.{seat};
ghost use Rattle.board_walks.specs.Walks.{global_by, holds_global, clears, passes, last_held, held_global, held_local, local_under, row_of, rows_of, column_of, row_with};

use board_seats::{both, either, no, sub};

// The seat h is one of v's.
fn of_vcpu(h: u64, v: u64) -> bool
    requires { v ≤ 16 }
    ensures { result ≡ any_to 8 (λ n. eqb h (seat v n)) }
{
    let base = sub(v, 1) * 8;
    both(base < h, h <= base + 8)
}

fn global_by(view: &[u64], a: &[u16], v: u64, m: u64) -> bool
    requires { v ≤ 16 }
    ensures { result ≡ global_by view.now a.now v m }
{
    both(
        board_seats::is_global(view, m),
        of_vcpu(board_seats::holder(a, m), v),
    )
}

// The tasks of v hold a global mutex.
pub fn holds_global(view: &[u64], a: &[u16], v: u64) -> bool
    requires { v ≤ 16 }
    ensures { result ≡ holds_global view.now a.now v }
{
    for m in 1..=32 {
        if global_by(view, a, v, m) {
            return true;
        }
    }
    false
}

fn clears(view: &[u64], a: &[u16], v: u64, n: u64, m: u64) -> bool
    requires { (v ≤ 16) × (n ≤ 8) }
    ensures { result ≡ clears view.now a.now v n m }
{
    let bars = both(
        board_seats::is_local(view, v, m),
        board_seats::held_by_other(a, v, n, m),
    );
    either(no(bars), board_seats::ceiling(view, m) < n)
}

// n is above the ceiling of every local mutex of v held by other tasks.
pub fn passes(view: &[u64], a: &[u16], v: u64, n: u64) -> bool
    requires { (v ≤ 16) × (n ≤ 8) }
    ensures { result ≡ passes view.now a.now v n }
{
    for m in 1..=32 {
        if !clears(view, a, v, n, m) {
            return false;
        }
    }
    true
}

// The highest mutex that task (v, n) holds, 0 for none.
pub fn last_held(a: &[u16], v: u64, n: u64) -> u64
    requires { (v ≤ 16) × (n ≤ 8) }
    ensures { result ≡ last_held a.now v n }
{
    for m in (1..=32).rev() {
        if board_seats::holds(a, v, n, m) {
            return m;
        }
    }
    0
}

// Task (v, n) holds a global mutex.
pub fn held_global(view: &[u64], a: &[u16], v: u64, n: u64) -> bool
    requires { (v ≤ 16) × (n ≤ 8) }
    ensures { result ≡ held_global view.now a.now v n }
{
    for m in 1..=32 {
        if both(
            board_seats::is_global(view, m),
            board_seats::holds(a, v, n, m),
        ) {
            return true;
        }
    }
    false
}

// The local mutex that task (v, n) holds, 0 for none.
pub fn held_local(view: &[u64], a: &[u16], v: u64, n: u64) -> u64
    requires { (v ≤ 16) × (n ≤ 8) }
    ensures { result ≡ held_local view.now a.now v n }
{
    for m in (1..=32).rev() {
        if both(
            board_seats::is_local(view, v, m),
            board_seats::holds(a, v, n, m),
        ) {
            return m;
        }
    }
    0
}

// The highest task of v, not above the cap, that waits for a local mutex of v; 0 for none.
pub fn local_under(view: &[u64], a: &[u8], v: u64, cap: u64) -> u64
    requires { v ≤ 16 }
    ensures { (result ≡ local_under view.now a.now v cap) × (result ≤ 8) }
{
    for n in (1..=8).rev() {
        if both(board_seats::local_waiter(view, a, v, n), n <= cap) {
            return n;
        }
    }
    0
}

// The waiting marks by rows of VCPUs and columns of tasks.
pub fn row(a: &[u8], v: u64) -> [u8; 8]
    requires { v ≤ 16 }
    ensures { result ≡ row_of a.now v }
{
    let mut row = [0u8; 8];
    for n in 0..8 {
        row[n] = board_seats::kept_wait(a, v, n as u64 + 1);
    }
    row
}

pub fn rows(a: &[u8]) -> [[u8; 8]; 16]
    ensures { result ≡ rows_of a.now }
{
    let none = [0u8; 8];
    let mut rows = [none; 16];
    for v in 0..16 {
        rows[v] = row(a, v as u64 + 1);
    }
    rows
}

// The highest column that has the mark w, 0 for none.
pub fn column(row: [u8; 8], w: u8) -> u64
    ensures { (result ≡ column_of row w) × (result ≤ 8) }
{
    for n in (0..8).rev() {
        if row[n] == w {
            return n as u64 + 1;
        }
    }
    0
}

// The highest row that has the mark w, 0 for none.
pub fn row_with(rows: [[u8; 8]; 16], w: u8) -> u64
    ensures { (result ≡ row_with rows w) × (result ≤ 16) }
{
    for v in (0..16).rev() {
        if 0 < column(rows[v], w) {
            return v as u64 + 1;
        }
    }
    0
}
