// A refused plan's one line into a lent buffer, and how many bytes a call has written.
#![tactic(auto)]

ghost use Rattle.std.specs.Prelude.{◌≡◌};
ghost use Rattle.listing.specs.Listing.{refused_line};
ghost use Rattle.listing_lines.specs.Into.{text_answer, text_after, bytes_in};

use plan::{Complaint, Refusal};

// Writes the one line of a refusal; with too little room 8, and the buffer as it was lent.
pub fn refusal_text(c: Complaint, out: &mut [u8]) -> Result<usize, Refusal>
    ensures value { result ≡ text_answer (refused_line c) out.old }
    ensures out_after { out.new ≡ text_after (refused_line c) out.old }
{
    if out.len() < listing_lines::refused_size(c) {
        return Err(Refusal::Room);
    }
    let n = listing_lines::refused_line(out, c);
    Ok(n)
}

// How many bytes a call has written.
pub fn bytes_in(a: Result<usize, Refusal>) -> usize
    ensures { result ≡ bytes_in a }
{
    match a {
        Ok(n) => n,
        Err(_) => 0,
    }
}
