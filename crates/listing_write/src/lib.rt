// The whole listing of a plan in lent tables, into a lent buffer: 9 first.
#![tactic(auto)]

ghost use Rattle.std.specs.Prelude.{◌≡◌, Err};
ghost use Rattle.plan.specs.declared.Refusal.TheVariants.{Foreign};
ghost use Rattle.plan_tables.specs.Layout.{lent};
ghost use Rattle.listing_asked.specs.Asked.{listing_asked, listing_left};

use figures_cells::PlanTables;
use plan::Refusal;
use plan_tables::PlanRecord;

fn foreign() -> Result<usize, Refusal>
    ensures { result ≡ Err Foreign }
{
    Err(Refusal::Foreign)
}

// Writes the listing of the plan in lent tables into a lent buffer: 9 first, then 8.
pub fn write_listing(
    r: PlanRecord,
    vt: &[u64],
    mt: &[u64],
    ot: &[u64],
    ts: &[u64],
    out: &mut [u8],
) -> Result<usize, Refusal>
    ensures value { result ≡ listing_asked r (lent vt.now mt.now ot.now ts.now) out.old }
    ensures out_after { out.new ≡ listing_left r (lent vt.now mt.now ot.now ts.now) out.old }
{
    if !given_test::is_given(r, vt, mt, ot, ts) {
        return foreign();
    }
    let t = PlanTables {
        plan: r,
        vcpus: vt,
        mutexes: mt,
        tasks: ts,
    };
    listing_puts::listing_into(&t, out)
}
