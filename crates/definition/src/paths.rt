// Paths between goals.
ghost use Rattle.std.specs.Prelude.{◌≡◌};
ghost use Rattle.definition.specs.Paths.{kind_number, kind_of, extend, empty_path, flag_of, weaker_flags};
ghost use Rattle.definition.specs.Paths.{contains_path, extend_with, extend_with_paths};
ghost use Rattle.definition.specs.Table.{Extensions};
ghost use Rattle.definition.specs.declared.paths.PathKind.{PathKind};

// The kind of a path, in the order of `extend`.
#[derive(Debug, Clone, Copy, PartialEq, Eq, PartialOrd, Ord, Hash)]
pub enum PathKind {
    Inductive,
    Unknown,
    Coinductive,
    ForcedAmbiguity,
}

// A set of paths: flags in a byte, the empty path 1, inductive 2, unknown 4,
// coinductive 8, forced ambiguity 16.
#[derive(Debug, Clone, Copy, PartialEq, Eq)]
pub struct PathsToNested {
    pub bits: u8,
}

// The number that a call line has for the kind.
impl From<PathKind> for u8 {
    ghost from_gives = { λ kind n. n ≡ kind_number kind };

    fn from(kind: PathKind) -> u8 {
        match kind {
            PathKind::Inductive => 0,
            PathKind::Unknown => 1,
            PathKind::Coinductive => 2,
            PathKind::ForcedAmbiguity => 3,
        }
    }
}

// The kind of a number; every number above 3 is read as 3.
impl From<u8> for PathKind {
    ghost from_gives = { λ n kind. kind ≡ kind_of n };

    fn from(n: u8) -> PathKind {
        match n {
            0 => PathKind::Inductive,
            1 => PathKind::Unknown,
            2 => PathKind::Coinductive,
            3..=255 => PathKind::ForcedAmbiguity,
        }
    }
}

impl PathKind {
    // The kind of a path of this kind that goes on with a path of kind `rest`.
    pub fn extend(self, rest: PathKind) -> PathKind
        ensures { result ≡ extend self rest }
    {
        self.max(rest)
    }

    // The kind's flag in a set of paths.
    pub fn flag(self) -> u8
        ensures { result ≡ flag_of self }
    {
        match self {
            PathKind::Inductive => 2,
            PathKind::Unknown => 4,
            PathKind::Coinductive => 8,
            PathKind::ForcedAmbiguity => 16,
        }
    }

    // The flags below the kind's own.
    pub fn weaker_flags(self) -> u8
        ensures { result ≡ weaker_flags self }
    {
        match self {
            PathKind::Inductive => 1,
            PathKind::Unknown => 3,
            PathKind::Coinductive => 7,
            PathKind::ForcedAmbiguity => 15,
        }
    }
}

// The set with a kind's flag for those below it, given both.
#[tactic(auto, using(crate::proofs::Extensions::by_flags))]
pub fn replace_weaker(bits: u8, weaker: u8, flag: u8) -> u8
    ensures { (kind : PathKind)
        → weaker ≡ weaker_flags kind → flag ≡ flag_of kind → result ≡ extend_with bits kind }
{
    if bits & weaker == 0 {
        return bits;
    }
    (bits & !weaker) | flag
}

// The set of a path of a kind.
impl From<PathKind> for PathsToNested {
    ghost from_gives = { λ kind paths. paths.bits ≡ flag_of kind };

    fn from(kind: PathKind) -> PathsToNested {
        PathsToNested { bits: kind.flag() }
    }
}

impl PathsToNested {
    // The set of the empty path.
    pub fn empty_path() -> PathsToNested
        ensures { result.bits ≡ empty_path }
    {
        PathsToNested { bits: 1 }
    }

    pub fn contains(self, kind: PathKind) -> bool
        ensures { result ≡ contains_path self.bits kind }
    {
        let flag = kind.flag();
        self.bits & flag == flag
    }

    // The paths, each gone on with by a path of a kind.
    pub fn extend_with(self, kind: PathKind) -> PathsToNested
        ensures { result.bits ≡ extend_with self.bits kind }
    {
        let weaker = kind.weaker_flags();
        let flag = kind.flag();
        PathsToNested {
            bits: replace_weaker(self.bits, weaker, flag),
        }
    }

    // The paths, each gone on with by each path of `rest` but the empty one: read in the table of
    // extensions. Flags beyond the five, which no set of paths has, are no kinds in `rest`, and
    // in `self` each extension keeps them.
    #[tactic(auto, using(crate::proofs::Extensions::by_table))]
    pub fn extend_with_paths(self, rest: PathsToNested, table: &[u8; 1024]) -> PathsToNested
        requires { Extensions table.now }
        ensures { result.bits ≡ extend_with_paths self.bits rest.bits }
    {
        let a = self.bits % 32;
        let b = rest.bits % 32;
        let extended = table[32 * usize::from(a) + usize::from(b)];
        if self.bits < 32 || b < 2 {
            return PathsToNested { bits: extended };
        }
        PathsToNested {
            bits: extended | (self.bits & 224),
        }
    }
}
