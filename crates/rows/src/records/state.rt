// What a cycle is given of the system and the stack, and the cells that are built of them for the next row.
ghost use Rattle.std.specs.Prelude.{◌≡◌, ◌-◌};
ghost use Rattle.rows.specs.records.Built.{built_system, built_stack, reversed16, no_system, no_stack, read_system, read_stack, read16};

use crate::records::ids::{ContextId, RowIndex};
use field::felt::{Felt, reduce};
use groups::word::{Word, read_word, word_at};

#[derive(Clone, Copy)]
pub struct SystemState {
    pub clk: RowIndex,
    pub ctx: ContextId,
    pub fn_hash: Word,
}

// The top 16 elements are stored last first: the top of the stack is the last.
#[derive(Clone, Copy)]
pub struct StackState {
    pub stack_top: [u64; 16],
    pub stack_depth: u32,
    pub overflow_addr: u64,
}

#[derive(Clone, Copy)]
pub struct SystemCols {
    pub clk: u64,
    pub ctx: u64,
    pub fn_hash: Word,
}

#[derive(Clone, Copy)]
pub struct StackCols {
    pub top: [u64; 16],
    pub b0: u64,
    pub b1: u64,
    pub h0: u64,
}

impl SystemCols {
    // The cells before any row is built.
    #[tactic(auto, unfolding(crate::specs::records::Built::no_system))]
    pub fn zeros() -> Self
        ensures { result ≡ no_system }
    {
        Self {
            clk: Felt::ZERO,
            ctx: Felt::ZERO,
            fn_hash: Word(Felt::ZERO, Felt::ZERO, Felt::ZERO, Felt::ZERO),
        }
    }

    // The next row's cells.
    #[tactic(auto, unfolding(crate::specs::records::Built::built_system))]
    pub fn build(system: SystemState) -> Self
        ensures { result ≡ built_system system }
    {
        Self {
            clk: u64::from(system.clk.0) + 1,
            ctx: u64::from(system.ctx.0),
            fn_hash: read_word(system.fn_hash),
        }
    }

    // The cells read modulo p.
    #[tactic(auto, unfolding(crate::specs::records::Built::read_system))]
    pub fn read(self) -> Self
        ensures { result ≡ read_system self }
    {
        Self {
            clk: reduce(self.clk),
            ctx: reduce(self.ctx),
            fn_hash: read_word(self.fn_hash),
        }
    }
}

// The depth less 16.
pub(crate) fn overflow_helper(depth: u64) -> u64
    ensures { result ≡ depth - 16 }
{
    depth.saturating_sub(16)
}

// The last of the stored top comes first.
fn reversed(mut top: [u64; 16]) -> [u64; 16]
    ensures { result ≡ reversed16 top }
{
    top.reverse();
    top
}

// 16 cells read modulo p, word by word: a proof of `map` over the array did not close.
#[tactic(auto, unfolding(groups::specs::Words::word_at))]
fn read_top(t: [u64; 16]) -> [u64; 16]
    ensures { result ≡ read16 t }
{
    let a = word_at(&t, 0);
    let b = word_at(&t, 4);
    let c = word_at(&t, 8);
    let d = word_at(&t, 12);
    [
        a.0, a.1, a.2, a.3, b.0, b.1, b.2, b.3, c.0, c.1, c.2, c.3, d.0, d.1, d.2, d.3,
    ]
}

impl StackCols {
    // The cells before any row is built.
    #[tactic(auto, unfolding(crate::specs::records::Built::no_stack))]
    pub fn zeros() -> Self
        ensures { result ≡ no_stack }
    {
        Self {
            top: [Felt::ZERO; 16],
            b0: Felt::ZERO,
            b1: Felt::ZERO,
            h0: Felt::ZERO,
        }
    }

    // The next row's cells.
    #[tactic(auto, unfolding(crate::specs::records::Built::built_stack))]
    pub fn build(stack: StackState) -> Self
        ensures { result ≡ built_stack stack }
    {
        let depth = u64::from(stack.stack_depth);
        let stored = stack.stack_top;
        let top = read_top(reversed(stored));
        Self {
            top,
            b0: depth,
            b1: reduce(stack.overflow_addr),
            h0: overflow_helper(depth),
        }
    }

    // The cells read modulo p.
    #[tactic(auto, unfolding(crate::specs::records::Built::read_stack))]
    pub fn read(self) -> Self
        ensures { result ≡ read_stack self }
    {
        let stored = self.top;
        let top = read_top(stored);
        Self {
            top,
            b0: reduce(self.b0),
            b1: reduce(self.b1),
            h0: reduce(self.h0),
        }
    }
}
