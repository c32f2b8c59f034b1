// How long an input may be, and how much room the texts need that the programs print: the second in definitions and proofs only, in specs/.
#![tactic(auto)]

ghost use Rattle.std.specs.Prelude.{◌≡◌, ltb};
ghost use Rattle.plan.specs.Limits.{max_input};

// Is an input longer than a program takes?
pub fn too_large(n: usize) -> bool
    ensures { result ≡ ltb max_input n }
{
    65536 < n
}
