// What a call refuses, and at which place: an error for every reader and operation. Assumes nothing.
#![tactic(auto)]

ghost use Rattle.std.specs.Prelude.{◌≡◌, ℕ};
ghost use Rattle.spec_refusals.specs.Numbers.{fault_number};

// What is at fault, one kind for each number of refusal. The number is the kind's value.
#[derive(Clone, Copy, PartialEq, Eq)]
pub enum Fault {
    // The sheet is over its length.
    SheetLength = 1,
    // A line of the sheet is missing or not of its form, or bytes follow the last one.
    SheetLine = 2,
    // The window, or the number of signals or of rules, is outside its range.
    SheetNumber = 3,
    // A signal's name is not of its form, reserved or given twice.
    SignalName = 4,
    // A rule is too long or empty, or its formula does not fit.
    Formula = 5,
    // A formula has a name that is not declared.
    Undeclared = 6,
    // An interval has an end outside its range, or no whole number inside.
    Interval = 7,
    // One `(` or `!` too many is open.
    Nesting = 8,
    // The sheet has too many hidden signals or rows.
    SheetSize = 9,
    // The readings are over their length.
    ReadingsLength = 10,
    // A line of the readings is missing or not of its form.
    ReadingsLine = 11,
    // A text other than the sheet has an unknown name.
    UnknownName = 12,
    // A tick is outside the window.
    Tick = 13,
    // A value is a number other than 0 or 1.
    Value = 14,
    // The table has another length than the sheet's.
    TableLength = 15,
    // The table has a mark outside the window.
    TableMark = 16,
    // A signal, a tick or a rule that is asked for is outside its range.
    Asked = 17,
    // There are more or fewer records than signals.
    Records = 18,
    // The lengths do not fit the texts.
    TextLengths = 19,
    // What is written does not fit into the lent buffer.
    Room = 20,
    // A span ends before it starts.
    SpanEnd = 21,
    // A line of a dump is not the one that is to stand there.
    DumpLine = 22,
    // The table clashes.
    Clash = 23,
    // A line of the captions is not of its form, or names a signal again.
    CaptionLine = 24,
    // The table of a listing is longer than what is lent for it.
    ListedTable = 29,
}

// What tells what is at fault by a number of refusal: a kind of fault, or the number itself.
pub trait Numbered: Copy {
    ghost number: { Self → ℕ };
}

impl Numbered for Fault {
    ghost number = { fault_number };
}

impl Numbered for usize {
    ghost number = { λ n. n };
}

// A refusal: what is at fault, and the place of it.
#[derive(Clone, Copy, PartialEq, Eq)]
pub struct Refusal<F = Fault> {
    pub fault: F,
    pub place: usize,
}

impl Refusal<Fault> {
    // The number of the refusal.
    pub fn number(&self) -> usize
        ensures { result ≡ fault_number self.now.fault }
    {
        self.fault as usize
    }
}
