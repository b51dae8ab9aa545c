//! The keywords of listings.
ghost use Rattle.std.specs.Prelude.{◌≡◌};
ghost use Rattle.ppm_listing.specs.Tokens.{keyword_text};

/// A keyword of a listing: of the lines that say what a code has, of instructions, and of ends.
#[derive(Clone, Copy, Debug)]
pub enum Keyword {
    Ppm,
    Root,
    Proc,
    Slots,
    Entry,
    Capsule,
    Const,
    Move,
    Add,
    Sub,
    Mul,
    Div,
    Rem,
    Equal,
    NotEqual,
    Less,
    AtMost,
    Len,
    CutLeft,
    CutRight,
    LoadSlot,
    StoreCur,
    Give,
    Get,
    Put,
    BranchZero,
    BranchNonZero,
    Room,
    StoreNew,
    Next,
    End,
    Trap,
    Call,
    CallTo,
    Fork,
    ForkTo,
}

impl Keyword {
    /// Its spelling, small letters of ASCII.
    pub fn spelling(self) -> &'static str
        ensures { result.now ≡ keyword_text self }
    {
        match self {
            Keyword::Ppm => "ppm",
            Keyword::Root => "root",
            Keyword::Proc => "proc",
            Keyword::Slots => "slots",
            Keyword::Entry => "entry",
            Keyword::Capsule => "capsule",
            Keyword::Const => "const",
            Keyword::Move => "move",
            Keyword::Add => "add",
            Keyword::Sub => "sub",
            Keyword::Mul => "mul",
            Keyword::Div => "div",
            Keyword::Rem => "rem",
            Keyword::Equal => "eq",
            Keyword::NotEqual => "ne",
            Keyword::Less => "lt",
            Keyword::AtMost => "le",
            Keyword::Len => "len",
            Keyword::CutLeft => "cutl",
            Keyword::CutRight => "cutr",
            Keyword::LoadSlot => "loadslot",
            Keyword::StoreCur => "storecur",
            Keyword::Give => "give",
            Keyword::Get => "get",
            Keyword::Put => "put",
            Keyword::BranchZero => "branchz",
            Keyword::BranchNonZero => "branchnz",
            Keyword::Room => "room",
            Keyword::StoreNew => "storenew",
            Keyword::Next => "next",
            Keyword::End => "end",
            Keyword::Trap => "trap",
            Keyword::Call => "call",
            Keyword::CallTo => "callto",
            Keyword::Fork => "fork",
            Keyword::ForkTo => "forkto",
        }
    }
}
