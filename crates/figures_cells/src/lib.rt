// A plan in lent tables that are fit for the figures' code, as those that passed the test for 9 are, and what its rows say: their numbers, which mutexes are global and which local, and which of two tasks is the lower. What these are stands in crate figures, specs/Figures.
#![tactic(auto)]

ghost use Rattle.figures.specs.Tabled.{Fit};

use plan_tables::{PlanRecord, TASK_WIDTH};

// A plan in lent tables: its record, and the rows of its VCPUs, mutexes and tasks.
#[derive(Clone, Copy)]
pub struct PlanTables<'a> {
    pub plan: PlanRecord,
    pub vcpus: &'a [u64],
    pub mutexes: &'a [u64],
    pub tasks: &'a [u64],
    // Tables that passed the test for 9 are so: few rows, within the slices, every number of them small, and every task's VCPU there.
    pub ghost fit: { Fit plan vcpus.now mutexes.now tasks.now },
}

impl<'a> PlanTables<'a> {
    ghost use Rattle.std.specs.Prelude.{◌≡◌, ◌&&◌, ◌+◌, ◌*◌, ◌<◌, eqb};
    ghost use Rattle.laws.specs.Rows.{Is};
    ghost use Rattle.plan.specs.Lookup.{is_global, is_local_to, global, local_to};
    ghost use Rattle.plan_tables.specs.Layout.{cell, mutex_row, lock_row, task_row, task_width};
    ghost use Rattle.figures.specs.Figures.{lower_task, global_ticks};
    ghost use Rattle.figures_cells.specs.Held.{system_of};

    // Number c of VCPU row a.
    pub fn vcpu_cell(&self, a: usize, c: usize) -> u64
        requires { (a < self.now.plan.vcpus) × (c < 5) }
        ensures { Is result (cell self.now.vcpus.now 5 a c) 1000000 }
    {
        self.vcpus[a * 5 + c]
    }

    // Number c of mutex row a.
    fn mutex_cell(&self, a: usize, c: usize) -> u64
        requires { (a < self.now.plan.mutexes) × (c < 2) }
        ensures { result ≡ cell self.now.mutexes.now 2 a c }
    {
        self.mutexes[a * 2 + c]
    }

    // Number c of task row i.
    pub fn task_cell(&self, i: usize, c: usize) -> u64
        requires { (i < self.now.plan.tasks) × (c < task_width) }
        ensures { Is result (cell self.now.tasks.now task_width i c) 1000000 }
    {
        self.tasks[i * TASK_WIDTH + c]
    }

    // How many locks task i has.
    pub fn lock_count(&self, i: usize) -> usize
        requires { i < self.now.plan.tasks }
        ensures { Is result (cell self.now.tasks.now task_width i 4) 8 }
    {
        self.tasks[i * TASK_WIDTH + 4] as usize
    }

    // Number c of lock j of task i.
    pub fn lock_cell(&self, i: usize, j: usize, c: usize) -> u64
        requires { (i < self.now.plan.tasks) × (j < 8) × (c < 3) }
        ensures { Is result (cell self.now.tasks.now task_width i (5 + (j * 3 + c))) 1000000 }
    {
        self.tasks[i * TASK_WIDTH + (5 + (j * 3 + c))]
    }

    // Is mutex row a the mutex m, and global?
    fn row_global(&self, a: usize, m: u64) -> bool
        requires { a < self.now.plan.mutexes }
        ensures { result ≡ (eqb (mutex_row self.now.mutexes.now a).m m && is_global (mutex_row self.now.mutexes.now a).owner) }
    {
        (self.mutex_cell(a, 0) == m) & (self.mutex_cell(a, 1) == 0)
    }

    // Is m a global mutex?
    pub fn is_global(&self, m: u64) -> bool
        ensures { result ≡ global (system_of self.now).mutexes m }
    {
        let n = self.plan.mutexes;
        for a in 0..n {
            if self.row_global(a, m) {
                return true;
            }
        }
        false
    }

    // Is mutex row a the mutex m, and local to v?
    fn row_local(&self, a: usize, v: u64, m: u64) -> bool
        requires { a < self.now.plan.mutexes }
        ensures { result ≡ (eqb (mutex_row self.now.mutexes.now a).m m && is_local_to v (mutex_row self.now.mutexes.now a).owner) }
    {
        let owner = self.mutex_cell(a, 1);
        (self.mutex_cell(a, 0) == m) & ((owner != 0) & (owner == v))
    }

    // Is m a mutex that is local to v?
    pub fn is_local(&self, v: u64, m: u64) -> bool
        ensures { result ≡ local_to (system_of self.now).mutexes v m }
    {
        let n = self.plan.mutexes;
        for a in 0..n {
            if self.row_local(a, v, m) {
                return true;
            }
        }
        false
    }

    // The ticks of lock j of task i where it is a global section, else 0.
    pub fn global_ticks(&self, i: usize, j: usize) -> u64
        requires { (i < self.now.plan.tasks) × (j < 8) }
        ensures { Is result (global_ticks (system_of self.now) (lock_row self.now.tasks.now i j)) 1000000 }
    {
        let m = self.lock_cell(i, j, 0);
        if self.is_global(m) {
            self.lock_cell(i, j, 1)
        } else {
            0
        }
    }

    // Is task row i the task (v, n)?
    pub fn row_task(&self, i: usize, v: u64, n: u64) -> bool
        requires { i < self.now.plan.tasks }
        ensures { result ≡ (eqb (task_row self.now.tasks.now i).v v && eqb (task_row self.now.tasks.now i).n n) }
    {
        (self.task_cell(i, 0) == v) & (self.task_cell(i, 1) == n)
    }

    // Is task h a lower task of task i's VCPU?
    pub fn is_lower(&self, i: usize, h: usize) -> bool
        requires { (i < self.now.plan.tasks) × (h < self.now.plan.tasks) }
        ensures { result ≡ lower_task (task_row self.now.tasks.now i) (task_row self.now.tasks.now h) }
    {
        (self.task_cell(h, 0) == self.task_cell(i, 0))
            & (self.task_cell(h, 1) < self.task_cell(i, 1))
    }
}
