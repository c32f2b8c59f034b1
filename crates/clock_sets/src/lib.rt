// Sets of the names 1 to 16 (VCPUs) or 1 to 8 (tasks) as the bits of a number: bit v - 1 for v.
#![tactic(auto)]

ghost use Rattle.std.specs.Prelude.{◌≡◌, ◌<◌, ◌≤◌};
ghost use Rattle.laws_picks.specs.Picks.{lowest};
ghost use Rattle.clock_sets.specs.Sets.{in_set, With, Without, Meet, Join, Less, Highest};

// v is in s.
pub fn has(s: u64, v: u64) -> bool
    requires { (0 < v) × (v ≤ 16) }
    ensures { result ≡ in_set s v }
{
    (s >> (v - 1)) % 2 == 1
}

// s with v.
pub fn with(s: u64, v: u64) -> u64
    requires { (0 < v) × (v ≤ 16) × (s < 65536) }
    ensures { With s v result }
{
    s | (1 << (v - 1))
}

// s without v.
pub fn without(s: u64, v: u64) -> u64
    requires { (0 < v) × (v ≤ 16) }
    ensures { Without s v result }
{
    s & !(1 << (v - 1))
}

// What both have.
pub fn meet(a: u64, b: u64) -> u64
    ensures { Meet a b result }
{
    a & b
}

// What either has.
pub fn join(a: u64, b: u64) -> u64
    requires { (a < 65536) × (b < 65536) }
    ensures { Join a b result }
{
    a | b
}

// What a has and b has not.
pub fn less(a: u64, b: u64) -> u64
    ensures { Less a b result }
{
    a & !b
}

// The greatest name in s, 0 where s is empty: the place of the highest bit of s doubled, with a bit below that is always there.
pub fn highest_in(s: u64) -> u64
    requires { s < 65536 }
    ensures { Highest s result }
{
    63 - u64::leading_zeros(s * 2 + 1) as u64
}

// The least name in s, 0 where s is empty: one more than the zeros below the lowest bit of s.
pub fn lowest_in(s: u64) -> u64
    requires { s < 65536 }
    ensures { (result ≡ lowest 16 (in_set s)) × (result ≤ 16) }
{
    if s == 0 {
        return 0;
    }
    u64::trailing_zeros(s) as u64 + 1
}
