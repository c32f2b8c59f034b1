// The words of a line, and its kind. What they mean stands in specs/ of `plan`; a word as one number in specs/Keys.
#![tactic(auto)]

ghost use Rattle.std.specs.Prelude.{◌≡◌};
ghost use Rattle.text_words.specs.Keys as keys;

use plan::Kind;

// The keys of the words: the bytes, and how many.
const PLAN: u64 = 0x706c616e * 8 + 4;

const POLICY: u64 = 0x706f6c696379 * 8 + 6;

const VCPU: u64 = 0x76637075 * 8 + 4;

const MUTEX: u64 = 0x6d75746578 * 8 + 5;

const OPEN: u64 = 0x6f70656e * 8 + 4;

const GUEST: u64 = 0x6775657374 * 8 + 5;

const TASK: u64 = 0x7461736b * 8 + 4;

const RUN: u64 = 0x72756e * 8 + 3;

const LOCK: u64 = 0x6c6f636b * 8 + 4;

const END: u64 = 0x656e64 * 8 + 3;

const ASK: u64 = 0x61736b * 8 + 3;

const FREE: u64 = 0x66726565 * 8 + 4;

const USE: u64 = 0x757365 * 8 + 3;

const TOP: u64 = 0x746f70 * 8 + 3;

const SHOW: u64 = 0x73686f77 * 8 + 4;

const ONE: u64 = 0x31 * 8 + 1;

const P: u64 = 0x50 * 8 + 1;

const D: u64 = 0x44 * 8 + 1;

const O: u64 = 0x4f * 8 + 1;

const N: u64 = 0x4e * 8 + 1;

const G: u64 = 0x47 * 8 + 1;

const L: u64 = 0x4c * 8 + 1;

// The bytes of a short word as one number, told apart by its length.
fn key(s: &[u8]) -> u64
    ensures { result ≡ keys.key_of s.now }
{
    if 7 < s.len() {
        return 0;
    }
    let mut v: u64 = 0;
    for x in s {
        v = v * 256 + *x as u64;
    }
    v * 8 + s.len() as u64
}

// The kind k where the test holds, else what the rest says.
fn first(ok: bool, k: Kind, rest: Option<Kind>) -> Option<Kind>
    ensures { result ≡ keys.first_of ok k rest }
{
    if ok { Some(k) } else { rest }
}

// The kind of an event's line with c tabs, by the key of its first word.
fn event_kind(c: usize, w: u64) -> Option<Kind>
    ensures { result ≡ keys.event_kind c w }
{
    let show = first((c == 2) & (w == SHOW), Kind::ShowLine, None);
    let top = first((c == 1) & (w == TOP), Kind::TopLine, show);
    let used = first((c == 2) & (w == USE), Kind::UseLine, top);
    let free = first((c == 3) & (w == FREE), Kind::FreeLine, used);
    first((c == 3) & (w == ASK), Kind::AskLine, free)
}

// The same, of a line in a guest's section.
fn sheet_kind(c: usize, w: u64) -> Option<Kind>
    ensures { result ≡ keys.sheet_kind c w }
{
    let end = first((c == 0) & (w == END), Kind::EndLine, event_kind(c, w));
    let lock = first((c == 2) & (w == LOCK), Kind::LockLine, end);
    let run = first((c == 1) & (w == RUN), Kind::RunLine, lock);
    let task = first((c == 3) & (w == TASK), Kind::TaskLine, run);
    first((c == 1) & (w == GUEST), Kind::GuestLine, task)
}

// The same, of a line in the host's tables, with the key of its third field.
fn table_kind(c: usize, w: u64, b: u64) -> Option<Kind>
    ensures { result ≡ keys.table_kind c w b }
{
    let open = first((c == 2) & (w == OPEN), Kind::OpenLine, sheet_kind(c, w));
    let local = first((c == 3) & ((w == MUTEX) & (b == L)), Kind::MutexL, open);
    let global = first((c == 2) & ((w == MUTEX) & (b == G)), Kind::MutexG, local);
    first((c == 5) & (w == VCPU), Kind::VcpuLine, global)
}

// The kind of a line with c tabs, by the keys of its first three fields.
fn line_kind(c: usize, w: u64, a: u64, b: u64) -> Option<Kind>
    ensures { result ≡ keys.line_kind c w a b }
{
    let table = table_kind(c, w, b);
    let dn = first(
        (c == 2) & ((w == POLICY) & ((a == D) & (b == N))),
        Kind::PolicyDN,
        table,
    );
    let d_o = first(
        (c == 2) & ((w == POLICY) & ((a == D) & (b == O))),
        Kind::PolicyDO,
        dn,
    );
    let pn = first(
        (c == 2) & ((w == POLICY) & ((a == P) & (b == N))),
        Kind::PolicyPN,
        d_o,
    );
    let po = first(
        (c == 2) & ((w == POLICY) & ((a == P) & (b == O))),
        Kind::PolicyPO,
        pn,
    );
    first((c == 1) & ((w == PLAN) & (a == ONE)), Kind::PlanLine, po)
}

// The same, by the fields.
pub fn kind_at(c: usize, w: &[u8], a: &[u8], b: &[u8]) -> Option<Kind>
    ensures { result ≡ keys.kind_at c w.now a.now b.now }
{
    line_kind(c, key(w), key(a), key(b))
}
