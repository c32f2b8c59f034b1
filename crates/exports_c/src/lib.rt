// The functions of `exports` for C, in one archive: each calls the function of its name there, with the same clauses.
#![tactic(auto)]

ghost use Rattle.std.specs.Prelude.{◌≡◌};
ghost use Rattle.listing.specs.Listing.{verdict_text};
ghost use Rattle.board_events.specs.Events.{board_text};
ghost use Rattle.listing_lines.specs.Into.{text_answer, text_after};
ghost use Rattle.desk_runs.specs.Ran.{run_into};
ghost use Rattle.exports_codes.specs.Exported.{exported, run_exported, missed_left};

// What `verdict` prints for any input, into a lent buffer; with too little room -8, and the buffer as it was lent.
#[unsafe(no_mangle)]
pub extern "C" fn ryefrost_verdict(input: &[u8], out: &mut [u8]) -> i64
    ensures value { result ≡ exported (text_answer (verdict_text input.now) out.old) }
    ensures out_after { out.new ≡ text_after (verdict_text input.now) out.old }
{
    exports::ryefrost_verdict(input, out)
}

// What `board` prints for any two inputs, into a lent buffer; with too little room -8, and the buffer as it was lent.
#[unsafe(no_mangle)]
pub extern "C" fn ryefrost_board(plan: &[u8], events: &[u8], out: &mut [u8]) -> i64
    ensures value { result ≡ exported (text_answer (board_text plan.now events.now) out.old) }
    ensures out_after { out.new ≡ text_after (board_text plan.now events.now) out.old }
{
    exports::ryefrost_board(plan, events, out)
}

// How the run of any plan to a horizon ends: 0 before the horizon, 1 at a missed job, whose tick, v and n are left in the first three places; with fewer places -8.
#[unsafe(no_mangle)]
pub extern "C" fn ryefrost_run(plan: &[u8], horizon: u64, missed: &mut [u64]) -> i64
    ensures value { result ≡ run_exported (run_into plan.now horizon missed.old) }
    ensures missed_after { missed.new ≡ missed_left (run_into plan.now horizon missed.old) missed.old }
{
    exports::ryefrost_run(plan, horizon, missed)
}
