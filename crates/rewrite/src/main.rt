// Reads a plan on standard input into tables and prints it as it is written from these, or its refusal.
#![tactic(auto)]

use std::process::ExitCode;

// One byte more than is judged is read, so that a longer input is seen to be longer.
fn main(rt: HostRuntime) -> ExitCode {
    let mut src = [0u8; 65537];
    let Some(n) = program::read_input(&rt, b"the plan on standard input", &mut src) else {
        return ExitCode::FAILURE;
    };
    let mut out = [0u8; 65536];
    let w = desk_write::rewrite_in(&src[..n], &mut out);
    program::status(program::print(&rt, &out[..w]))
}
