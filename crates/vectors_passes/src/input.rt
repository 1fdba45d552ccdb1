// What the passes and the finisher are given, read of an input. The input's places: profile 0 to 13; fragment size 14; rows 15; height 16;
// first stack top 17 to 32; last built cells 33 to 57; counts from 59, built cells of the fragments from 68, the buffer from 279, each of
// these three with its length in the place before.
use groups::refusal::Refusal;
use rows::passes::finish::finish;
use rows::passes::fixup::fixup_stack_and_system_rows;
use rows::passes::fragments::Fragments;
use rows::passes::halt::{pad_core_row_major, push_halt_opcode_row};
use rows::passes::helper_column::invert_helper_column;
use rows::passes::multiplicity::set_loop_body_multiplicities;
use rows::records::profile::Profile;
use vectors_shared::numbers::{Numbers, Part};

// The calls, the finisher by every number from 5 on.
#[derive(Clone, Copy)]
pub enum Call {
    Fixup,
    Multiplicity,
    HelperColumn,
    Halt,
    Padding,
    Finisher,
}

impl From<u64> for Call {
    fn from(number: u64) -> Self {
        match number {
            0 => Self::Fixup,
            1 => Self::Multiplicity,
            2 => Self::HelperColumn,
            3 => Self::Halt,
            4 => Self::Padding,
            _ => Self::Finisher,
        }
    }
}

#[derive(Clone, Copy)]
pub struct Input {
    profile: Profile,
    size: usize,
    rows: usize,
    height: usize,
    top: [u64; 16],
    last: [u64; 25],
    counts: Part<u32, 8>,
    built: Part<u64, 210>,
}

impl From<Numbers<'_>> for Input {
    fn from(list: Numbers<'_>) -> Self {
        Self {
            profile: Profile::from(list),
            size: list.item(14),
            rows: list.item(15),
            height: list.item(16),
            top: list.behind(17).array(),
            last: list.behind(33).array(),
            counts: list.behind(58).part(),
            built: list.behind(67).part(),
        }
    }
}

impl Input {
    fn fragments(&self) -> Fragments<'_> {
        Fragments {
            size: self.size,
            counts: self.counts.lent(),
            built: self.built.lent(),
        }
    }

    // The call on the buffer.
    pub fn run(&self, call: Call, buffer: &mut [u64]) -> Result<(), Refusal> {
        let profile = self.profile;
        let rows = self.rows;
        match call {
            Call::Fixup => fixup_stack_and_system_rows(buffer, &self.fragments(), self.top),
            Call::Multiplicity => set_loop_body_multiplicities(profile, buffer, rows),
            Call::HelperColumn => invert_helper_column(buffer, rows),
            Call::Halt => push_halt_opcode_row(profile, buffer, rows, self.last),
            Call::Padding => pad_core_row_major(profile, buffer, rows, self.height),
            Call::Finisher => finish(profile, buffer, &self.fragments(), self.top, self.height),
        }
    }

    // The five passes in order. The last of them takes one row more, the HALT row; the buffer has room for 12 rows.
    pub fn run_passes(&self, buffer: &mut [u64]) -> Result<(), Refusal> {
        let passes = [
            Call::Fixup,
            Call::Multiplicity,
            Call::HelperColumn,
            Call::Halt,
        ];
        for call in passes {
            self.run(call, buffer)?;
        }
        let rows = self.rows.min(12) + 1;
        pad_core_row_major(self.profile, buffer, rows, self.height)
    }
}
