// Reads a plan in plan.tsv and events on standard input, and prints the answer to each event, or the plan's refusal.
#![tactic(auto)]

use std::process::ExitCode;

// One byte more than is judged is read, so that a longer input is seen to be longer.
fn main(rt: HostRuntime) -> ExitCode {
    let mut plan = [0u8; 65537];
    let Some(k) = program::read_file(&rt, b"plan.tsv", &mut plan) else {
        return ExitCode::FAILURE;
    };
    let mut src = [0u8; 65537];
    let Some(n) = program::read_input(&rt, b"the events on standard input", &mut src) else {
        return ExitCode::FAILURE;
    };
    let mut out = [0u8; 655360];
    let w = desk::board_in(&plan[..k], &src[..n], &mut out);
    program::status(program::print(&rt, &out[..w]))
}
