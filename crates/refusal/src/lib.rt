// Why a call is refused, and the number of each reason.
#![tactic(auto)]

ghost use Rattle.std.specs.Prelude.{◌≡◌};
ghost use Rattle.refusal.specs.declared.Refusal.{Refusal};
ghost use Rattle.refusal.specs.Refusals.{refusal_number, number_in};

// The reasons, in the order of their numbers. Those from 0x0500 are the codes of OpenGL ES.
#[derive(Clone, Copy, Debug, PartialEq, Eq)]
pub enum Refusal {
    Invalid, // an unsound context or stack, or a store of another length
    GuestTooLong, // base plus length of the guest bytes passes 2^32
    UnknownStage, // a stage mask from 16 on
    NoSlot, // more than 16 names would live
    NoName, // a name would reach, or next pass, 2^32-1
    TooLarge, // more than 4,096 bytes for a buffer
    UnreadableIndices, // indices that guest memory does not hold
    NoVertices, // no vertex array is enabled, or it has neither buffer nor pointer
    NoPosition, // a position cannot be fetched
    NoTriangles, // a mode that draws no triangles
    NoRoom, // an output with too little room
    InvalidEnum,
    InvalidValue,
    InvalidOperation,
    StackOverflow,
    StackUnderflow,
}

// A number that names nothing where a call wants one of the enumerants of OpenGL ES.
#[derive(Clone, Copy, Debug, PartialEq, Eq)]
pub struct UnknownEnum;

impl From<UnknownEnum> for Refusal {
    ghost from_gives = { λ _ r. r ≡ Refusal.InvalidEnum };

    fn from(_e: UnknownEnum) -> Refusal {
        Refusal::InvalidEnum
    }
}

impl From<Refusal> for u32 {
    ghost from_gives = { λ r n. n ≡ refusal_number r };

    fn from(r: Refusal) -> u32 {
        match r {
            Refusal::Invalid => 1,
            Refusal::GuestTooLong => 2,
            Refusal::UnknownStage => 3,
            Refusal::NoSlot => 4,
            Refusal::NoName => 5,
            Refusal::TooLarge => 6,
            Refusal::UnreadableIndices => 7,
            Refusal::NoVertices => 8,
            Refusal::NoPosition => 9,
            Refusal::NoTriangles => 10,
            Refusal::NoRoom => 11,
            Refusal::InvalidEnum => 0x0500,
            Refusal::InvalidValue => 0x0501,
            Refusal::InvalidOperation => 0x0502,
            Refusal::StackOverflow => 0x0503,
            Refusal::StackUnderflow => 0x0504,
        }
    }
}

// The number of an answer, 0 for done.
pub fn number_of<T: Copy>(answer: Result<T, Refusal>) -> u32
    ensures { result ≡ number_in answer }
{
    match answer {
        Ok(_) => 0,
        Err(r) => u32::from(r),
    }
}
