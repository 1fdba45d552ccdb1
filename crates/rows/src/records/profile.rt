// The profile: the opcodes that a trace is written and read with, and the step of block addresses.
ghost use Rattle.std.specs.Prelude.{◌≡◌, drop};
ghost use Rattle.field.specs.Bounds.{any_from};
ghost use Rattle.rows.specs.records.Profiles.{opcodes, is_one_of, two_equal, profile_wrong};

use field::felt::Felt;

#[repr(C)]
#[derive(Clone, Copy)]
pub struct Profile {
    pub span: u8,
    pub respan: u8,
    pub join: u8,
    pub split: u8,
    pub loop_op: u8,
    pub repeat: u8,
    pub call: u8,
    pub syscall: u8,
    pub dyn_op: u8,
    pub dyncall: u8,
    pub push: u8,
    pub end: u8,
    pub halt: u8,
    pub step: u64,
}

// The thirteen opcodes in document 01's order.
#[tactic(auto, unfolding(crate::specs::records::Profiles::opcodes))]
pub fn opcodes_of(profile: Profile) -> [u8; 13]
    ensures { result ≡ opcodes profile }
{
    [
        profile.span,
        profile.respan,
        profile.join,
        profile.split,
        profile.loop_op,
        profile.repeat,
        profile.call,
        profile.syscall,
        profile.dyn_op,
        profile.dyncall,
        profile.push,
        profile.end,
        profile.halt,
    ]
}

// Whether one of the opcodes is 128 or above. All are looked at, several at a time; `any`, which stops at the first, is far slower over the
// opcodes of a forest.
pub fn any_big_opcode(opcodes: &[u8]) -> bool
    ensures { result ≡ any_from 128 opcodes.now }
{
    opcodes
        .iter()
        .fold(false, |found, opcode| found | (128 <= *opcode))
}

// Whether two of the opcodes are equal. All pairs are looked at, as above.
fn two_equal(opcodes: &[u8]) -> bool
    ensures { result ≡ two_equal opcodes.now }
{
    let mut found = false;
    for (i, opcode) in opcodes.iter().enumerate() {
        let rest = &opcodes[i + 1..];
        found |= rest
            .iter()
            .fold(false, |twice, other| twice | (*opcode == *other));
    }
    found
}

// Refusal 2.
#[tactic(auto, unfolding(crate::specs::records::Profiles::profile_wrong, crate::specs::records::Profiles::lacks_bits))]
pub fn is_wrong(profile: Profile) -> bool
    ensures { result ≡ profile_wrong profile }
{
    let opcodes = opcodes_of(profile);
    let halt = profile.halt;
    any_big_opcode(&opcodes)
        || two_equal(&opcodes)
        || halt / 32 % 2 != 1
        || halt / 64 % 2 != 1
        || profile.step == 0
        || Felt::MODULUS <= profile.step
}
