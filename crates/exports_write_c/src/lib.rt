// The function of `exports_write` for C, in an archive of its own: it calls the function of its name there, with the same clauses.
#![tactic(auto)]

ghost use Rattle.std.specs.Prelude.{◌≡◌};
ghost use Rattle.plan_tables.specs.Layout.{lent};
ghost use Rattle.exports_codes.specs.Exported.{exported};
ghost use Rattle.exports_write.specs.Numbers.{numbers_asked, numbers_left};

// The bytes of the plan in lent tables, into a lent buffer: with tables or a record that no accepted plan gives -9, then with too little room -8, and the buffer as it was lent.
#[unsafe(no_mangle)]
pub extern "C" fn ryefrost_write(
    numbers: &[u64],
    vcpus: &[u64],
    mutexes: &[u64],
    opens: &[u64],
    tasks: &[u64],
    out: &mut [u8],
) -> i64
    ensures value { result ≡ exported (numbers_asked numbers.now (lent vcpus.now mutexes.now opens.now tasks.now) out.old) }
    ensures out_after { out.new ≡ numbers_left numbers.now (lent vcpus.now mutexes.now opens.now tasks.now) out.old }
{
    exports_write::ryefrost_write(numbers, vcpus, mutexes, opens, tasks, out)
}
