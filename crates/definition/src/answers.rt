// Answers of goals.
ghost use Rattle.std.specs.Prelude.{◌≡◌};
ghost use Rattle.definition.specs.Answers.{answer_number, answer_of, combine, initial_provisional_result, initial_kind, is_ambiguous};

use crate::paths::PathKind;

// What a goal comes to, in the order of document 01's numbers. Undecided and Overflow are ambiguous.
#[derive(Debug, Clone, Copy, PartialEq, Eq, PartialOrd, Ord, Hash)]
pub enum Answer {
    No,
    Yes,
    Undecided,
    Overflow,
}

// Document 01's number.
impl From<Answer> for u8 {
    ghost from_gives = { λ a n. n ≡ answer_number a };

    fn from(answer: Answer) -> u8 {
        match answer {
            Answer::No => 0,
            Answer::Yes => 1,
            Answer::Undecided => 2,
            Answer::Overflow => 3,
        }
    }
}

// The answer of a number; every number above 3 is read as 3.
impl From<u8> for Answer {
    ghost from_gives = { λ n a. a ≡ answer_of n };

    fn from(n: u8) -> Answer {
        match n {
            0 => Answer::No,
            1 => Answer::Yes,
            2 => Answer::Undecided,
            3..=255 => Answer::Overflow,
        }
    }
}

impl Answer {
    // Of two answers that decide nothing: undecided where one of them is, else the one with the
    // higher number.
    #[tactic(auto, unfolding(crate::specs::Answers::combine))]
    pub fn combine(self, other: Answer) -> Answer
        ensures { result ≡ combine self other }
    {
        if self == Answer::Undecided || other == Answer::Undecided {
            return Answer::Undecided;
        }
        self.max(other)
    }

    pub fn is_ambiguous(self) -> bool
        ensures { result ≡ is_ambiguous self }
    {
        match self {
            Answer::No => false,
            Answer::Yes => false,
            Answer::Undecided => true,
            Answer::Overflow => true,
        }
    }

    // What a cycle of a kind is taken for before its first iteration ends.
    pub fn initial_result(kind: PathKind) -> Answer
        ensures { result ≡ initial_provisional_result kind }
    {
        match kind {
            PathKind::Inductive => Answer::No,
            PathKind::Unknown => Answer::Undecided,
            PathKind::Coinductive => Answer::Yes,
            PathKind::ForcedAmbiguity => Answer::Overflow,
        }
    }

    // The kind of the cycles that are first taken for this answer.
    pub fn initial_kind(self) -> PathKind
        ensures { result ≡ initial_kind self }
    {
        match self {
            Answer::No => PathKind::Inductive,
            Answer::Yes => PathKind::Coinductive,
            Answer::Undecided => PathKind::Unknown,
            Answer::Overflow => PathKind::ForcedAmbiguity,
        }
    }
}
