// What the code of a line says.
ghost use Rattle.std.specs.Prelude.{◌≡◌};
ghost use Rattle.book.specs.Codes.{code_of, is_group, is_node};

// A group asks for all of its parts, or for any of them.
#[derive(Debug, Clone, Copy, PartialEq, Eq)]
pub enum Op {
    All,
    Any,
}

#[derive(Debug, Clone, Copy, PartialEq, Eq)]
pub enum Code {
    Goal,
    Call,
    Group(Op),
    Pick,
    Undecided,
    Unknown,
}

// The one decision over codes, for whoever reads a line.
impl From<u16> for Code {
    ghost from_gives = { λ number code. code ≡ code_of number };

    fn from(number: u16) -> Code {
        match number {
            1 => Code::Goal,
            2 => Code::Call,
            3 => Code::Group(Op::All),
            4 => Code::Group(Op::Any),
            5 => Code::Pick,
            6 => Code::Undecided,
            0 | 7..=65535 => Code::Unknown,
        }
    }
}

impl Code {
    // All or any.
    pub fn is_group(self) -> bool
        ensures { result ≡ is_group self }
    {
        matches!(self, Code::Group(_))
    }

    // All, any or pick: parts stand below the line.
    pub fn is_node(self) -> bool
        ensures { result ≡ is_node self }
    {
        matches!(self, Code::Group(_) | Code::Pick)
    }
}
