// The kinds of option that a segment is read by.
ghost use Rattle.segment.specs.Kinds.{IsKind};

// The two kinds that have no length octet.
pub const END: u8 = 0;

pub const NOP: u8 = 1;

// The known kinds of option.
#[derive(Clone, Copy, PartialEq, Eq)]
pub enum Kind {
    Mss = 2,
    WindowScale = 3,
    SackPermitted = 4,
    Sack = 5,
    Timestamps = 8,
}

// A kind that is not known.
#[derive(Clone, Copy, PartialEq, Eq)]
pub struct UnknownKind;

impl TryFrom<u8> for Kind {
    type Error = UnknownKind;

    ghost try_from_gives = { IsKind };

    #[tactic(auto, unfolding(crate::specs::Options::stands_in))]
    fn try_from(kind: u8) -> Result<Kind, UnknownKind> {
        match kind {
            2 => Ok(Kind::Mss),
            3 => Ok(Kind::WindowScale),
            4 => Ok(Kind::SackPermitted),
            5 => Ok(Kind::Sack),
            8 => Ok(Kind::Timestamps),
            _ => Err(UnknownKind),
        }
    }
}
