// The calls of a script, each by the octet that names it.

#[derive(Clone, Copy)]
pub enum Call {
    Read = 1,
    Find = 2,
    Distance = 3,
    Open = 4,
    Arrive = 5,
    Sent = 6,
    Window = 7,
    Acknowledge = 8,
    Expire = 9,
    Timer = 10,
    Sample = 11,
    Expiry = 12,
    Refusal = 13,
    DistanceForC = 14,
    Milliseconds = 15,
    OpenUnderProfile = 19,
}

#[derive(Clone, Copy)]
pub struct UnknownCall;

impl TryFrom<u8> for Call {
    type Error = UnknownCall;

    fn try_from(octet: u8) -> Result<Call, UnknownCall> {
        match octet {
            1 => Ok(Call::Read),
            2 => Ok(Call::Find),
            3 => Ok(Call::Distance),
            4 => Ok(Call::Open),
            5 => Ok(Call::Arrive),
            6 => Ok(Call::Sent),
            7 => Ok(Call::Window),
            8 => Ok(Call::Acknowledge),
            9 => Ok(Call::Expire),
            10 => Ok(Call::Timer),
            11 => Ok(Call::Sample),
            12 => Ok(Call::Expiry),
            13 => Ok(Call::Refusal),
            14 => Ok(Call::DistanceForC),
            15 => Ok(Call::Milliseconds),
            19 => Ok(Call::OpenUnderProfile),
            _ => Err(UnknownCall),
        }
    }
}

impl Call {
    // The octets that the fixed fields of the call take at the start of its body.
    pub fn fixed_fields(self, body: &[u8]) -> usize {
        match self {
            Call::Read | Call::Expire | Call::Timer | Call::Expiry | Call::Refusal => 0,
            // The count of kinds, and the kinds.
            Call::Find => 1 + usize::from(octets::read_u8(body, 0)),
            Call::Distance | Call::Arrive | Call::Sample | Call::DistanceForC => 8,
            Call::Open | Call::OpenUnderProfile => 22,
            Call::Sent | Call::Window => 4,
            Call::Acknowledge => 12,
            Call::Milliseconds => 16,
        }
    }
}
