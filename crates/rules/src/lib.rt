// What an image decodes to, and the answers of the public functions: the types that every crate shares.
// Their definitions stand in specs/, in the order of document 01. The only code is the number of a code, and what a refusal becomes.
#![tactic(auto)]

ghost use Rattle.std.specs.Prelude.{◌≡◌};
ghost use Rattle.rules.specs.Codes.{number};

// A constant is a word; a variable and a cell M[x] are named by the variable's number.
#[derive(Clone, Copy)]
pub enum Operand {
    Constant(u32),
    Variable(u8),
    Cell(u8),
}

// What an update or an exchange writes: x or M[x].
#[derive(Clone, Copy)]
pub enum Target {
    Variable(u8),
    Cell(u8),
}

// The eleven operators over two operands, in the order of their kinds.
#[derive(Clone, Copy)]
pub enum Operator {
    Add,
    Subtract,
    Xor,
    Equal,
    Unequal,
    Less,
    AtMost,
    Greater,
    AtLeast,
    And,
    Or,
}

#[derive(Clone, Copy)]
pub enum Expression {
    Plain(Operand),
    Not(Operand),
    Two(Operator, Operand, Operand),
}

// += -= ^=
#[derive(Clone, Copy)]
pub enum Change {
    Add,
    Subtract,
    Xor,
}

// The labels that a call names; those from count on are 0.
#[derive(Clone, Copy)]
pub struct Names {
    pub count: u8,
    pub labels: [u8; 8],
}

// OpV and OpP are V x and P x.
#[derive(Clone, Copy)]
pub enum Instruction {
    Update(Change, Target, Expression),
    Exchange(Target, Target),
    OpV(u8),
    OpP(u8),
    Assert(Expression),
    Skip,
    Call(Names),
}

// `l <-`; `l1;l2 <- e`; `begin l`
#[derive(Clone, Copy)]
pub enum Entry {
    From(u8),
    Either(u8, u8, Expression),
    Begin(u8),
}

// `-> l`; `e -> l1;l2`; `end l`
#[derive(Clone, Copy)]
pub enum Exit {
    To(u8),
    Either(Expression, u8, u8),
    End(u8),
}

#[derive(Clone, Copy)]
pub struct Block {
    pub entry: Entry,
    pub instruction: Instruction,
    pub exit: Exit,
}

// Why something is refused: document 01's codes, each with its number.
#[derive(Clone, Copy, PartialEq, Eq, Debug)]
pub enum Code {
    ImageLength = 1,
    Kind = 2,
    Cut = 3,
    Variable = 4,
    TooManyBlocks = 5,
    EqualLabels = 6,
    OwnName = 7,
    CallPoint = 8,
    SemaphoreNamed = 9,
    LabelCount = 10,
    ProcessBlock = 11,
    UnknownLabel = 12,
    NoMain = 13,
    Circle = 14,
    TooDeep = 15,
    SliceLength = 16,
    Unfit = 17,
    NotLive = 18,
    BadDirection = 19,
    Children = 20,
    Stage = 21,
    OtherLabel = 22,
    Assertion = 23,
    Semaphore = 24,
    Address = 25,
    HistoryFull = 26,
    Held = 27,
    NoRoom = 28,
}

impl Code {
    pub fn number(self) -> u32
        ensures { result ≡ number self }
    {
        self as u32
    }
}

// A refusal: its code, and its place.
#[derive(Clone, Copy)]
pub struct Refused {
    pub code: Code,
    pub place: u32,
}

// From code 16 on the place is 0.
impl From<Code> for Refused {
    ghost from_gives = { λ code r. r ≡ record { code = code; place = 0 } };

    fn from(code: Code) -> Refused {
        Refused { code, place: 0 }
    }
}

// What judging finds of an image that it accepts: the number of blocks, and main's peak.
#[derive(Clone, Copy)]
pub struct Accepted {
    pub blocks: u32,
    pub peak: u32,
}

// The four numbers of a judgement.
#[repr(C)]
#[derive(Clone, Copy)]
pub struct Judged {
    pub code: u32,
    pub place: u32,
    pub blocks: u32,
    pub peak: u32,
}

// What starting, stepping and listing answer.
#[repr(C)]
#[derive(Clone, Copy)]
pub struct Answer {
    pub code: u32,
    pub place: u32,
}

impl From<Refused> for Answer {
    ghost from_gives = { λ r answer. answer ≡ record { code = number r.code; place = r.place } };

    fn from(refused: Refused) -> Answer {
        Answer {
            code: refused.code.number(),
            place: refused.place,
        }
    }
}

// Where a process stands: a label and a stage.
#[derive(Clone, Copy, PartialEq, Eq)]
pub struct Place {
    pub label: u32,
    pub stage: u32,
}

// The stages.
impl Place {
    pub const BEGIN: u32 = 0;

    pub const RUN: u32 = 1;

    pub const END: u32 = 2;
}

// One row of the list.
#[repr(C)]
#[derive(Clone, Copy)]
pub struct Row {
    pub identifier: u32,
    pub forward: u32,
    pub undo: u32,
}
