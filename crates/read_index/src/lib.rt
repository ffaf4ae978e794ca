// The index of the declared names: a spelling's slot leads to the names in it, the last one first, and from each to the one before it.
// Assumes that `names` is an index of the text `s`, whose names it has the places of.
#![tactic(auto)]

ghost use Rattle.std.specs.Prelude.{◌≡◌, true, ◌+◌, ◌<◌, ◌≤◌, length};
ghost use Rattle.read_bytes.specs.Bytes.{name_byte, every};
ghost use Rattle.read_names.specs.Spellings.{spelling_at, same_text_lem};
ghost use Rattle.read_index.specs.Index.{slots, links, names_in, IndexOf, put_name};
ghost use Rattle.read_index.specs.Finds.{Slotted, Finds};

use read_names::spelled_inside;
use spec_limits::SIGNALS;

// slots
pub const SLOTS: usize = 64;

// links: what stands before the names' places.
pub const LINKS: usize = SLOTS + SIGNALS;

// index_numbers
pub const INDEX: usize = LINKS + SIGNALS;

// golden
const GOLDEN: usize = 2654435769;

// mixed_numbers
const MIXED: usize = 4294967296;

// per_slot
const PER_SLOT: usize = MIXED / SLOTS;

// The number of a name, or how many names there are; the place after the spelling, and its slot.
#[derive(Clone, Copy)]
pub struct Found {
    pub signal: usize,
    pub end: usize,
    pub slot: usize,
}

// The place after the spelling at `at`, and its slot. A byte below `a` is no letter, so it is a digit or ends the spelling. The
// test stands here as branches: as a function's answer it costs some five instructions a byte more.
fn slot_at(r: &[u8], at: usize) -> (usize, usize)
    requires { at ≤ length r.now }
    ensures { Slotted r.now at result }
{
    let mut h: usize = 0;
    for i in at..r.len() {
        let b = r[i];
        if b < b'a' {
            if b < b'0' {
                return (i, h / PER_SLOT);
            }
            if b'9' < b {
                return (i, h / PER_SLOT);
            }
        } else {
            if b'z' < b {
                return (i, h / PER_SLOT);
            }
        }
        h = (h + b as usize) * GOLDEN % MIXED;
    }
    (r.len(), h / PER_SLOT)
}

// Is the spelling at `a` the spelling `w`?
fn is_name(s: &[u8], a: usize, w: &[u8]) -> bool
    requires { (a ≤ length s.now) × (every name_byte w.now ≡ true) }
    ensures { result ≡ same_text_lem (spelling_at s.now a) w.now }
{
    a + w.len() <= s.len() && spelled_inside(s, a, w)
}

// Looks the spelling at `at` of `r` up.
pub fn find(s: &[u8], names: &[u16], r: &[u8], at: usize) -> Found
    requires { IndexOf s.now names.now × (at ≤ length r.now) }
    ensures { Finds (names_in s.now names.now) r.now at result }
{
    let (end, slot) = slot_at(r, at);
    let w = &r[at..end];
    let mut signal = names.len() - LINKS;
    let mut link = names[slot] as usize;
    while 0 < link {
        let i = link - 1;
        let a = names[LINKS + i] as usize;
        if is_name(s, a, w) {
            signal = i;
        }
        link = names[SLOTS + i] as usize;
    }
    Found { signal, end, slot }
}

// Puts a name more, at `place` and in `slot`, after the first `count`.
pub fn put_name(names: &mut [u16], count: usize, place: usize, slot: usize)
    requires { (slot < slots) × (links + count < length names.old) × (count ≤ 65534) × (place ≤ 65535) }
    ensures { names.new ≡ put_name names.old count place slot }
{
    names[LINKS + count] = place as u16;
    names[SLOTS + count] = names[slot];
    names[slot] = (count + 1) as u16;
}
