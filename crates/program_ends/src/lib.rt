// What the end of a read or a write says: how many bytes a read has put, and which errors are no faults. Of the system it names only those errors; it reads and writes nothing.
#![tactic(auto)]

ghost use Rattle.std.specs.Prelude.{◌≡◌};
ghost use Rattle.program_ends.specs.Ends.{more_bytes, is_absent, is_closed};

// Linux's numbers of the two errors.
const ENOENT: i32 = 2;

const EPIPE: i32 = 32;

// The bytes that a read has put, by its answer.
pub fn more(answer: isize) -> usize
    ensures { result ≡ more_bytes answer }
{
    if answer > 0 { answer as usize } else { 0 }
}

// Whether a file cannot be opened because there is none of that name.
pub fn is_absent(error: i32) -> bool
    ensures { result ≡ is_absent error }
{
    error == ENOENT
}

// Whether an output cannot be written because its reader has closed it.
pub fn is_closed(error: i32) -> bool
    ensures { result ≡ is_closed error }
{
    error == EPIPE
}
