// What a frame is (kind), as its first byte says.
ghost use Rattle.std.specs.Prelude.{◌≡◌};
ghost use Rattle.apollo.specs.Kind.{kind_number, kind_of};

#[derive(Clone, Copy, Debug, PartialEq, Eq)]
pub enum Kind {
    Block = 1,
    Blame = 2,
}

// A byte that stands for no kind.
#[derive(Clone, Copy, Debug, PartialEq, Eq)]
pub struct UnknownKind(pub u8);

// Its byte.
impl From<Kind> for u8 {
    ghost from_gives = { λ k n. n ≡ kind_number k };

    fn from(k: Kind) -> u8 {
        k as u8
    }
}

// The kind that a byte stands for.
impl TryFrom<u8> for Kind {
    type Error = UnknownKind;

    ghost try_from_gives = { λ n r. r ≡ kind_of n };

    #[tactic(auto, unfolding(crate::specs::Kind::kind_of))]
    fn try_from(n: u8) -> Result<Kind, UnknownKind> {
        match n {
            1 => Ok(Kind::Block),
            2 => Ok(Kind::Blame),
            _ => Err(UnknownKind(n)),
        }
    }
}
