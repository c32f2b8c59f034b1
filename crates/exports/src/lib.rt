// The library's functions for C, on byte slices, which `exports_c` exports. Each result is one number: the bytes written, or how a run ends, or the refusal's number, negated.
#![tactic(auto)]

ghost use Rattle.std.specs.Prelude.{◌≡◌};
ghost use Rattle.listing.specs.Listing.{verdict_text};
ghost use Rattle.board_events.specs.Events.{board_text};
ghost use Rattle.listing_lines.specs.Into.{text_answer, text_after};
ghost use Rattle.desk_runs.specs.Ran.{run_into};
ghost use Rattle.exports_codes.specs.Exported.{exported, run_exported, missed_left};

use clock_rules::RunAnswer;
use plan::Refusal;

// What `verdict` prints for any input, into a lent buffer; with too little room -8, and the buffer as it was lent.
pub fn ryefrost_verdict(input: &[u8], out: &mut [u8]) -> i64
    ensures value { result ≡ exported (text_answer (verdict_text input.now) out.old) }
    ensures out_after { out.new ≡ text_after (verdict_text input.now) out.old }
{
    let a = desk::verdict_text(input, out);
    exports_codes::exported(a)
}

// What `board` prints for any two inputs, into a lent buffer; with too little room -8, and the buffer as it was lent.
pub fn ryefrost_board(plan: &[u8], events: &[u8], out: &mut [u8]) -> i64
    ensures value { result ≡ exported (text_answer (board_text plan.now events.now) out.old) }
    ensures out_after { out.new ≡ text_after (board_text plan.now events.now) out.old }
{
    let a = desk::board_text(plan, events, out);
    exports_codes::exported(a)
}

// How the run of any plan to a horizon ends: 0 before the horizon, 1 at a missed job, whose tick, v and n are left in the first three places; with fewer places -8.
pub fn ryefrost_run(plan: &[u8], horizon: u64, missed: &mut [u64]) -> i64
    ensures value { result ≡ run_exported (run_into plan.now horizon missed.old) }
    ensures missed_after { missed.new ≡ missed_left (run_into plan.now horizon missed.old) missed.old }
{
    if exports_codes::too_few(missed.len()) {
        return exports_codes::run_exported(RunAnswer::NoRun(Refusal::Room));
    }
    let a = desk_clock::run_bytes(plan, horizon);
    exports_codes::leave_missed(a, missed);
    exports_codes::run_exported(a)
}
