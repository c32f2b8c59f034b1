// The lines of a plan, each told behind the first n bytes of a lent buffer: written where `on`, else only counted. The texts are those of specs/Text of `plan`.
#![tactic(auto)]

ghost use Rattle.std.specs.Prelude.{[], ◌∷◌, ◌++◌};
ghost use Rattle.laws.specs.Decimal.{decimal};
ghost use Rattle.plan.specs.Text.{owned_item, text_of};
ghost use Rattle.plan_tables.specs.Layout.{owner_of};
ghost use Rattle.text_letters.specs.Tabbed.{tabbed, rest};
ghost use Rattle.text_told.specs.Told.{Space, Told};
ghost use Rattle.write_lines.specs.Texts.{owner_fields};

// Tells a word and a number.
fn word_one(on: bool, out: &mut [u8], n: usize, w: &[u8], a: u64) -> usize
    requires { Space on (w.now ++ tabbed (decimal a)) out.old n }
    ensures { Told on (w.now ++ tabbed (decimal a)) out.old out.new n result }
{
    let k = text_told::tell(on, out, n, w);
    text_told::tell_number(on, out, k, a)
}

// Tells a line of a word and one number.
pub fn line_one(on: bool, out: &mut [u8], n: usize, w: &[u8], a: u64) -> usize
    requires { Space on (w.now ++ rest (decimal a ∷ [])) out.old n }
    ensures { Told on (w.now ++ rest (decimal a ∷ [])) out.old out.new n result }
{
    let k = text_told::tell(on, out, n, w);
    text_told::tell_last(on, out, k, a)
}

// Tells a line of a word and two numbers.
pub fn line_two(on: bool, out: &mut [u8], n: usize, w: &[u8], a: u64, b: u64) -> usize
    requires { Space on (w.now ++ rest (decimal a ∷ decimal b ∷ [])) out.old n }
    ensures { Told on (w.now ++ rest (decimal a ∷ decimal b ∷ [])) out.old out.new n result }
{
    let k = word_one(on, out, n, w, a);
    text_told::tell_last(on, out, k, b)
}

// Tells a line of a word and three numbers.
pub fn line_three(on: bool, out: &mut [u8], n: usize, w: &[u8], a: u64, b: u64, c: u64) -> usize
    requires { Space on (w.now ++ rest (decimal a ∷ decimal b ∷ decimal c ∷ [])) out.old n }
    ensures { Told on (w.now ++ rest (decimal a ∷ decimal b ∷ decimal c ∷ [])) out.old out.new n result }
{
    let k = word_one(on, out, n, w, a);
    let l = text_told::tell_number(on, out, k, b);
    text_told::tell_last(on, out, l, c)
}

// Tells a line of a word and five numbers.
pub fn line_five(
    on: bool,
    out: &mut [u8],
    n: usize,
    w: &[u8],
    a: u64,
    b: u64,
    c: u64,
    d: u64,
    e: u64,
) -> usize
    requires { Space on (w.now ++ rest (decimal a ∷ decimal b ∷ decimal c ∷ decimal d ∷ decimal e ∷ [])) out.old n }
    ensures { Told on (w.now ++ rest (decimal a ∷ decimal b ∷ decimal c ∷ decimal d ∷ decimal e ∷ [])) out.old out.new n result }
{
    let k = word_one(on, out, n, w, a);
    let l = text_told::tell_number(on, out, k, b);
    let m = text_told::tell_number(on, out, l, c);
    let p = text_told::tell_number(on, out, m, d);
    text_told::tell_last(on, out, p, e)
}

// Tells whose a mutex is, to the line's end: 0 is everybody's.
fn owner_rest(on: bool, out: &mut [u8], n: usize, owner: u64) -> usize
    requires { Space on (rest (owner_fields owner)) out.old n }
    ensures { Told on (rest (owner_fields owner)) out.old out.new n result }
{
    if owner == 0 {
        return text_told::tell(on, out, n, b"\tG\n");
    }
    let k = text_told::tell(on, out, n, b"\tL");
    text_told::tell_last(on, out, k, owner)
}

// Tells a mutex's line.
pub fn mutex_line(on: bool, out: &mut [u8], n: usize, m: u64, owner: u64) -> usize
    requires { Space on (text_of (owned_item m (owner_of owner) ∷ [])) out.old n }
    ensures { Told on (text_of (owned_item m (owner_of owner) ∷ [])) out.old out.new n result }
{
    let k = word_one(on, out, n, b"mutex", m);
    owner_rest(on, out, k, owner)
}
