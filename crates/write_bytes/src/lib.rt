// A writer of bytes into a lent buffer: one byte, a text, a number. It stores what there is room for and counts all, so that lent a buffer of no room it
// measures. And how many digits a number has. Assumes that the places can be counted.
#![tactic(auto)]

ghost use Rattle.std.specs.Prelude.{◌≡◌, [], ◌∷◌, ◌<◌, length};
ghost use Rattle.write_bytes.specs.Writes.{Counted, Wrote, decimal_text};
ghost use Rattle.write_bytes.specs.Writers.{Writes};

// A lent buffer, and how many bytes were written: the place of the next one.
#[derive(Drop)]
pub struct Writer<'a> {
    out: &'a mut [u8],
    used: usize,
}

impl<'a> Writer<'a> {
    // Writes from the buffer's first place on.
    pub fn new(out: &'a mut [u8]) -> Writer<'a>
        ensures same { result.out.ghost_name ≡ out.entry.ghost_name }
        ensures lent { result.out.now ≡ out.old }
        ensures start { result.used ≡ 0 }
    {
        Writer::at(out, 0)
    }

    // Writes from a place on: what stands before it counts as written.
    pub fn at(out: &'a mut [u8], used: usize) -> Writer<'a>
        ensures same { result.out.ghost_name ≡ out.entry.ghost_name }
        ensures lent { result.out.now ≡ out.old }
        ensures start { result.used ≡ used }
    {
        Writer { out, used }
    }

    // How many bytes were written.
    pub fn length(&self) -> usize
        ensures { result ≡ self.now.used }
    {
        self.used
    }

    // One byte more.
    pub fn push(&mut self, b: u8)
        requires { Counted self.old.used (b ∷ []) }
        ensures { Writes (b ∷ []) self.old self.new }
    {
        if self.used < self.out.len() {
            self.out[self.used] = b;
        }
        self.used += 1;
    }

    // The bytes of a text.
    pub fn push_text(&mut self, text: &[u8])
        requires { Counted self.old.used text.now }
        ensures { Writes text.now self.old self.new }
    {
        self.used = store_text(text, self.out, self.used);
    }

    // A number in decimal digits, the first not 0 but for 0 itself.
    pub fn decimal(&mut self, n: usize)
        requires { Counted self.old.used (decimal_text n) }
        ensures { Writes (decimal_text n) self.old self.new }
    {
        let last = (48 + n % 10) as u8;
        if n < 10 {
            self.push(last);
            return;
        }
        self.decimal(n / 10);
        self.push(last);
    }
}

// Stores the bytes of a text from a place on, as far as there is room, and answers the place after the text. They go one by one, for a copy of a whole part
// would have an archive for C ask for memcpy from outside; and the place is no field here, since the writer would be read and written for each byte.
fn store_text(text: &[u8], out: &mut [u8], used: usize) -> usize
    requires { Counted used text.now }
    ensures { Wrote text.now used out.old out.new result }
{
    let mut at = used;
    for b in text {
        if at < out.len() {
            out[at] = *b;
        }
        at += 1;
    }
    at
}

// How many bytes `decimal` writes of a number below 10,000.
pub fn digits_of(n: usize) -> usize
    requires { n < 10000 }
    ensures { result ≡ length (decimal_text n) }
{
    if n <= 9 {
        return 1;
    }
    if n <= 99 {
        return 2;
    }
    if n <= 999 {
        return 3;
    }
    4
}
