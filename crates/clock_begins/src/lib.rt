// The plan in lent tables that pass the test for 9, on a clock: the lists of its run before tick 0, and how the run to a horizon ends.
#![tactic(auto)]

ghost use Rattle.std.specs.Prelude.{◌≡◌, true, ◌≤◌, length};
ghost use Rattle.plan_tables.specs.Given.{plan_in, is_given};
ghost use Rattle.plan_tables.specs.Layout.{lent};
ghost use Rattle.figures.specs.System.{system};
ghost use Rattle.clock_rules.specs.Clock.{timing_of, run_of};
ghost use Rattle.clock_begins.specs.Begins.{Begun};

use board_rules::PlanView;
use clock_rules::RunAnswer;
use figures_cells::PlanTables;
use plan_tables::PlanRecord;

// Writes the lists of the run before tick 0, of tables that an accepted plan gives.
pub fn begin(
    r: PlanRecord,
    vt: &[u64],
    mt: &[u64],
    ot: &[u64],
    ts: &[u64],
    view: &mut [u64],
    times: &mut [u64],
    left: &mut [u64],
    over: &mut [u64],
    stopped: &mut [bool],
    holder: &mut [u16],
    waits: &mut [u8],
    marks: &mut [u64],
    nexts: &mut [u64],
)
    requires ts_value { (is_given r (lent vt.now mt.now ot.now ts.now) ≡ true) × (length view.old ≡ 4320) × (length times.old ≡ 3360) }
    requires left_len { (length left.old ≡ 16) × (length over.old ≡ 16) × (length stopped.old ≡ 16) × (length holder.old ≡ 32) × (length waits.old ≡ 128) × (length marks.old ≡ 424) × (length nexts.old ≡ 162) }
    ensures { Begun r (lent vt.now mt.now ot.now ts.now) view.new times.new left.new over.new stopped.new holder.new waits.new marks.new nexts.new }
{
    let t = PlanTables {
        plan: r,
        vcpus: vt,
        mutexes: mt,
        tasks: ts,
    };
    board_views::fill_view(&t, view);
    clock_views::fill_times(&t, times);
    let choice = r.overrun;
    clock_starts::start(
        choice, view, times, left, over, stopped, holder, waits, marks, nexts,
    );
}

// The run to horizon h, of tables that an accepted plan gives.
pub fn run_in(r: PlanRecord, vt: &[u64], mt: &[u64], ot: &[u64], ts: &[u64], h: u64) -> RunAnswer
    requires { (is_given r (lent vt.now mt.now ot.now ts.now) ≡ true) × (h ≤ 1000000) }
    ensures { result ≡ run_of (timing_of (system (plan_in r (lent vt.now mt.now ot.now ts.now)))) h }
{
    let mut view = [0u64; 4320];
    let mut times = [0u64; 3360];
    let mut left = [0u64; 16];
    let mut over = [0u64; 16];
    let mut stopped = [false; 16];
    let mut holder = [0u16; 32];
    let mut waits = [0u8; 128];
    let mut marks = [0u64; 424];
    let mut nexts = [0u64; 162];
    begin(
        r,
        vt,
        mt,
        ot,
        ts,
        &mut view,
        &mut times,
        &mut left,
        &mut over,
        &mut stopped,
        &mut holder,
        &mut waits,
        &mut marks,
        &mut nexts,
    );
    let plan = PlanView {
        policy: r.policy,
        overrun: r.overrun,
        view: &view,
    };
    clock_ends::run(
        &plan,
        &times,
        &mut left,
        &mut over,
        &mut stopped,
        &mut holder,
        &mut waits,
        &mut marks,
        &mut nexts,
        h,
    )
}
