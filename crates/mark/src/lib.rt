// A number made of all bytes of a name, by which names are told apart before their bytes are compared.
#![tactic(auto)]

ghost use Rattle.std.specs.Prelude.{◌≡◌};
ghost use Rattle.mark.specs.Mark.{mark};

// As specs/Mark.antt has it. Marks are numbers of 32 bits, so what passes them wraps.
const MARK_FACTOR: u32 = 16777619;

// Names that are the same have the same mark.
pub fn mark_of(name: &[u8]) -> u32
    ensures { result ≡ mark name.now }
{
    name.iter().fold(
        0,
        |h: u32, b| h.wrapping_mul(MARK_FACTOR).wrapping_add(u32::from(*b)),
    )
}
