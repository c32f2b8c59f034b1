// The reading of the line `horizon h`. Its rules are those of specs/Trace of `clock_rules`.
#![tactic(auto)]

ghost use Rattle.std.specs.Prelude.{◌≡◌, [], ◌∷◌, ltb};
ghost use Rattle.laws.specs.Bytes.{pieces, same};
ghost use Rattle.plan.specs.Limits.{tab};
ghost use Rattle.plan.specs.Line.{bad};
ghost use Rattle.clock_rules.specs.Trace.{horizon_of, horizon_in, horizon_from};
ghost use Rattle.clock_horizons.specs.Horizon.{told};

use plan::{BAD, LF, Refusal, TAB};

// The horizon is 1 to 1,000,000.
pub const MAX_HORIZON: u64 = 1000000;

// Are the bytes of s those of w?
fn says(s: &[u8], w: &[u8]) -> bool
    ensures { result ≡ same s.now w.now }
{
    s == w
}

// The answer to a number.
fn horizon_of(h: u64) -> Result<u64, Refusal>
    ensures { told result ≡ horizon_of h (ltb h bad) }
{
    if BAD <= h {
        return Err(Refusal::Number);
    }
    if (1 <= h) & (h <= MAX_HORIZON) {
        return Ok(h);
    }
    Err(Refusal::Range)
}

// The answer to two fields.
fn horizon_fields(w: &[u8], f: &[u8]) -> Result<u64, Refusal>
    ensures { told result ≡ horizon_in (w.now ∷ f.now ∷ []) }
{
    if says(w, b"horizon") {
        return horizon_of(text_numbers::number(f, 2));
    }
    Err(Refusal::Shape)
}

// The answer to a line: it has two fields.
fn horizon_in(l: &[u8]) -> Result<u64, Refusal>
    ensures { told result ≡ horizon_in (pieces tab l.now) }
{
    let n = text_lines::cut(l, TAB);
    if n == l.len() {
        return Err(Refusal::Shape);
    }
    let f = &l[n + 1..];
    let m = text_lines::cut(f, TAB);
    if m != f.len() {
        return Err(Refusal::Shape);
    }
    horizon_fields(&l[..n], f)
}

// Reads the line `horizon h`, the tick before which a run ends, or says why the line is refused: from its first LF on it has that LF only.
pub fn horizon_from(src: &[u8]) -> Result<u64, Refusal>
    ensures { told result ≡ horizon_from src.now }
{
    let n = text_lines::cut(src, LF);
    if src.len() - n != 1 {
        return Err(Refusal::Shape);
    }
    horizon_in(&src[..n])
}
