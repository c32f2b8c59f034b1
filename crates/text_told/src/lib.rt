// Texts told one behind another into a lent buffer: written where `on`, else only counted.
#![tactic(auto)]

ghost use Rattle.std.specs.Prelude.{[], ◌∷◌};
ghost use Rattle.laws.specs.Decimal.{decimal};
ghost use Rattle.text_letters.specs.Tabbed.{tabbed, rest};
ghost use Rattle.text_told.specs.Told.{Space, Told};

// Tells the bytes of w behind the first n.
pub fn tell(on: bool, out: &mut [u8], n: usize, w: &[u8]) -> usize
    requires { Space on w.now out.old n }
    ensures { Told on w.now out.old out.new n result }
{
    if on {
        return n + text_letters::put(&mut out[n..], w);
    }
    n + w.len()
}

// Tells a tab and a number.
pub fn tell_number(on: bool, out: &mut [u8], n: usize, x: u64) -> usize
    requires { Space on (tabbed (decimal x)) out.old n }
    ensures { Told on (tabbed (decimal x)) out.old out.new n result }
{
    if on {
        return n + text_letters::tab_number(&mut out[n..], x);
    }
    n + (text_letters::number_size(x) + 1)
}

// Tells a line's last field, a number.
pub fn tell_last(on: bool, out: &mut [u8], n: usize, x: u64) -> usize
    requires { Space on (rest (decimal x ∷ [])) out.old n }
    ensures { Told on (rest (decimal x ∷ [])) out.old out.new n result }
{
    if on {
        return n + text_letters::last_rest(&mut out[n..], x);
    }
    n + (text_letters::number_size(x) + 2)
}
