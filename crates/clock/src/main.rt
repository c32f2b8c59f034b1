// Reads a plan in plan.tsv and one line `horizon h` on standard input, and prints the run of the plan on a clock: a line for each event, tick after tick, and how the run ended; or a refusal.
#![tactic(auto)]

ghost use Rattle.std.specs.Prelude.{◌≡◌, true, ◌≤◌, length};
ghost use Rattle.plan_tables.specs.Given.{is_given};
ghost use Rattle.plan_tables.specs.Layout.{lent};
ghost use Rattle.records_read.specs.Lies.{Sure};
ghost use Rattle.board_rules.specs.PlanViews.{facts};
ghost use Rattle.log_answers.specs.Small.{Small};
ghost use Rattle.clock_nexts.specs.Nexts.{Nexts};
ghost use Rattle.clock_going.specs.Lent.{GoingOf};

use board_rules::PlanView;
use plan::{Complaint, no_room};
use plan_tables::PlanRecord;
use std::io;
use std::process::ExitCode;

// Prints the last line of a run that ended.
fn tell_end(rt: &(impl Print + Eprint), h: u64, out: &mut [u8]) -> io::Result<()>
    requires { (h ≤ 1000000) × (length out.old ≡ 131072) }
{
    let e = clock_lines::end_line(out, h);
    program::print(rt, &out[..e])
}

// Tells the run to h, tick after tick, and how it ended.
fn tell_run(
    rt: &(impl Print + Eprint),
    plan: &PlanView,
    times: &[u64],
    left: &mut [u64],
    over: &mut [u64],
    stopped: &mut [bool],
    holder: &mut [u16],
    waits: &mut [u8],
    marks: &mut [u64],
    nexts: &mut [u64],
    h: u64,
    out: &mut [u8],
) -> io::Result<()>
    requires { GoingOf plan.now times.now left.old over.old stopped.old holder.old waits.old marks.old × Nexts times.now nexts.old 0 × Small (facts plan.now) × (h ≤ 1000000) × (length out.old ≡ 131072) }
{
    for t in 0u64..h {
        let goes_on = clock_tells::tell_tick(
            rt, plan, times, left, over, stopped, holder, waits, marks, nexts, t, out,
        )?;
        if !goes_on {
            return Ok(());
        }
    }
    tell_end(rt, h, out)
}

// Tells the run to h of the plan in tables that passed the test for 9.
fn tell_plan(
    rt: &(impl Print + Eprint),
    r: PlanRecord,
    vt: &[u64],
    mt: &[u64],
    ot: &[u64],
    ts: &[u64],
    h: u64,
    out: &mut [u8],
) -> io::Result<()>
    requires { (is_given r (lent vt.now mt.now ot.now ts.now) ≡ true) × (h ≤ 1000000) × (length out.old ≡ 131072) }
{
    let mut view = [0u64; 4320];
    let mut times = [0u64; 3360];
    let mut left = [0u64; 16];
    let mut over = [0u64; 16];
    let mut stopped = [false; 16];
    let mut holder = [0u16; 32];
    let mut waits = [0u8; 128];
    let mut marks = [0u64; 424];
    let mut nexts = [0u64; 162];
    clock_begins::begin(
        r,
        vt,
        mt,
        ot,
        ts,
        &mut view,
        &mut times,
        &mut left,
        &mut over,
        &mut stopped,
        &mut holder,
        &mut waits,
        &mut marks,
        &mut nexts,
    );
    let plan = PlanView {
        policy: r.policy,
        overrun: r.overrun,
        view: &view,
    };
    tell_run(
        rt,
        &plan,
        &times,
        &mut left,
        &mut over,
        &mut stopped,
        &mut holder,
        &mut waits,
        &mut marks,
        &mut nexts,
        h,
        out,
    )
}

// Tells the run to the horizon that src asks for, or why that line is refused.
fn tell_asked(
    rt: &(impl Print + Eprint),
    r: PlanRecord,
    vt: &[u64],
    mt: &[u64],
    ot: &[u64],
    ts: &[u64],
    src: &[u8],
    out: &mut [u8],
) -> io::Result<()>
    requires { (is_given r (lent vt.now mt.now ot.now ts.now) ≡ true) × (length out.old ≡ 131072) }
{
    match clock_horizons::horizon_from(src) {
        Ok(h) => tell_plan(rt, r, vt, mt, ot, ts, h, out),
        Err(k) => {
            let w = clock_lines::refused_alone(out, k);
            program::print(rt, &out[..w])
        }
    }
}

// Prints the line of a refused plan.
fn tell_refusal(rt: &(impl Print + Eprint), c: Complaint, out: &mut [u8]) -> io::Result<()>
    requires { length out.old ≡ 131072 }
{
    let w = listing_lines::refused_line(out, c);
    program::print(rt, &out[..w])
}

// Tells the run of an accepted plan, or why a plan is refused.
fn tell_or(
    rt: &(impl Print + Eprint),
    a: Result<PlanRecord, Complaint>,
    vt: &[u64],
    mt: &[u64],
    ot: &[u64],
    ts: &[u64],
    src: &[u8],
    out: &mut [u8],
) -> io::Result<()>
    requires { Sure a (lent vt.now mt.now ot.now ts.now) × (length out.old ≡ 131072) }
{
    match a {
        Ok(r) => tell_asked(rt, r, vt, mt, ot, ts, src, out),
        Err(c) => tell_refusal(rt, c, out),
    }
}

// Reads the plan, and tells what its line asks for.
fn tell(rt: &(impl Print + Eprint), plan: &[u8], src: &[u8]) -> io::Result<()> {
    let mut out = [0u8; 131072];
    if desk_rooms::too_large(plan.len()) {
        return tell_refusal(rt, no_room(), &mut out);
    }
    if desk_rooms::too_large(src.len()) {
        return tell_refusal(rt, no_room(), &mut out);
    }
    let mut vt = [0u64; 80];
    let mut mt = [0u64; 64];
    let mut ot = [0u64; 256];
    let mut ts = [0u64; 1856];
    let a = records_read::read_rows(plan, &mut vt, &mut mt, &mut ot, &mut ts);
    tell_or(rt, a, &vt, &mt, &ot, &ts, src, &mut out)
}

// One byte more than is judged is read, so that a longer input is seen to be longer.
fn main(rt: HostRuntime) -> ExitCode {
    let mut plan = [0u8; 65537];
    let Some(k) = program::read_file(&rt, b"plan.tsv", &mut plan) else {
        return ExitCode::FAILURE;
    };
    let mut src = [0u8; 65537];
    let Some(n) = program::read_input(&rt, b"the horizon on standard input", &mut src) else {
        return ExitCode::FAILURE;
    };
    program::status(tell(&rt, &plan[..k], &src[..n]))
}
