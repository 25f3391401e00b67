//! The numbers of load codes and p signs.
ghost use Rattle.std.specs.Prelude.{◌≡◌};
ghost use Rattle.traffic.specs.Records.{code_number, sign_number};

use crate::records::{Code, Sign};
use loads::load_sets::Group;

/// The load code, from 0 to 8.
impl From<Code> for u8 {
    ghost from_gives = { λ code n. n ≡ code_number code };

    fn from(code: Code) -> Self {
        match code {
            Code::Light => 0,
            Code::Axles(Group::Single) => 1,
            Code::Axles(Group::Bogie12) => 2,
            Code::Axles(Group::Bogie21) => 3,
            Code::Axles(Group::Triple211) => 4,
            Code::Axles(Group::Triple121) => 5,
            Code::Axles(Group::Triple112) => 6,
            Code::Vehicle => 7,
            Code::Train => 8,
        }
    }
}

/// The p sign: -1, 0 or 1.
impl From<Sign> for i8 {
    ghost from_gives = { λ sign n. n ≡ sign_number sign };

    fn from(sign: Sign) -> Self {
        match sign {
            Sign::Below => -1,
            Sign::None => 0,
            Sign::Above => 1,
        }
    }
}
