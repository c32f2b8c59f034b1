// The nexts of the VCPUs and tasks that recur are written anew when those of a tick are made. What is kept is said in specs/Nexts of `clock_nexts`.
#![tactic(auto)]

ghost use Rattle.std.specs.Prelude.{◌≡◌, ◌≤◌, length, get_or};
ghost use Rattle.clock_nexts.specs.Nexts.{renewal, Tops, Jobs, Periods, HasTops, Wrote, Soonest, TopsRenewed, RowsRenewed, JobsRenewed};

// The least of the cells from a to before e.
fn soonest(nexts: &[u64], a: usize, e: usize) -> u64
    requires { (length nexts.now ≡ 162) × (a ≤ e) × (e ≤ 162) }
    ensures { Soonest (λ j. get_or nexts.now j 0) a e result }
{
    let mut r = 3000000;
    for x in &nexts[a..e] {
        r = clock_nexts::sooner(*x, r);
    }
    r
}

// The same for the VCPUs of a set that has all that recur: the others have no next.
fn renew_set(times: &[u64], nexts: &mut [u64], all: u64, t: u64) -> u64
    requires { Periods times.now × (length nexts.old ≡ 162) × Tops times.now nexts.old t × (t ≤ 1000000) × HasTops times.now all }
    ensures { Wrote (renewal times.now nexts.old t) nexts.old nexts.new 0 16 × Soonest (renewal times.now nexts.old t) 0 16 result }
{
    let mut r = 3000000;
    let mut rest = all;
    while rest != 0 {
        let v = clock_sets::lowest_in(rest);
        let i = v as usize - 1;
        let y = clock_nexts::renewed(times[16 + i], nexts[i], t);
        nexts[i] = y;
        r = clock_nexts::sooner(y, r);
        rest = clock_sets::without(rest, v);
    }
    r
}

// Writes the next tops, when those of tick t are made: only the VCPUs of the set, which has all that recur, are looked at.
pub fn renew_tops(times: &[u64], nexts: &mut [u64], all: u64, t: u64)
    requires { Periods times.now × (length nexts.old ≡ 162) × Tops times.now nexts.old t × (t ≤ 1000000) × HasTops times.now all }
    ensures { TopsRenewed times.now nexts.old nexts.new t }
{
    let r = renew_set(times, nexts, all, t);
    nexts[160] = r;
}

// The same for each row that is due.
fn renew_rows(times: &[u64], nexts: &mut [u64], t: u64)
    requires { Periods times.now × (length nexts.old ≡ 162) × Jobs times.now nexts.old t × (t ≤ 1000000) }
    ensures { RowsRenewed times.now nexts.old nexts.new t 16 }
{
    for i in 0..16 {
        if nexts[144 + i] == t {
            clock_nexts::renew_row(times, nexts, i + 1, t);
        }
    }
}

// Writes the next releases, when those of tick t are made.
pub fn renew_jobs(times: &[u64], nexts: &mut [u64], t: u64)
    requires { Periods times.now × (length nexts.old ≡ 162) × Jobs times.now nexts.old t × (t ≤ 1000000) }
    ensures { JobsRenewed times.now nexts.old nexts.new t }
{
    renew_rows(times, nexts, t);
    let r = soonest(nexts, 144, 160);
    nexts[161] = r;
}
