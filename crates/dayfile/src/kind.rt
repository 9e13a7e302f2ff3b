// The kinds of record, each by the byte that opens it, and how long a body it fixes.
ghost use Rattle.std.specs.Prelude.{◌≡◌};
ghost use Rattle.day.specs.Sums.{Term};
ghost use Rattle.day.specs.File.{body_length};
ghost use Rattle.dayfile.specs.Kinds.{byte_of, Opens};

use day::Refusal;

#[derive(Clone, Copy, Debug, PartialEq, Eq)]
pub enum Kind {
    Period = 1,
    End = 2,
    Charges = 3,
    Store = 4,
    Stamp = 5,
}

impl Kind {
    // How long a body the kind fixes.
    pub fn body_length(self) -> usize
        ensures { Term (body_length (byte_of self)) 18 result }
    {
        match self {
            Kind::Period => 16,
            Kind::End => 2,
            Kind::Charges => 4,
            Kind::Store => 18,
            Kind::Stamp => 4,
        }
    }
}

impl From<Kind> for u8 {
    ghost from_gives = { λ kind byte. byte ≡ byte_of kind };

    fn from(kind: Kind) -> u8 {
        kind as u8
    }
}

// 10
impl TryFrom<u8> for Kind {
    type Error = Refusal;

    ghost try_from_gives = { Opens };

    fn try_from(byte: u8) -> Result<Kind, Refusal> {
        match byte {
            1 => Ok(Kind::Period),
            2 => Ok(Kind::End),
            3 => Ok(Kind::Charges),
            4 => Ok(Kind::Store),
            5 => Ok(Kind::Stamp),
            _ => Err(Refusal::UnknownKind),
        }
    }
}
