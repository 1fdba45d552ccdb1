// The tracer of one fragment: what is stored for the next row, the address state and queue positions, and the cells last built.
ghost use Rattle.std.specs.Prelude.{◌≡◌, ◌++◌, min};
ghost use Rattle.rows.specs.records.Built.{system_cells, stack_cells};
ghost use Rattle.rows.specs.cycles.Cycles.{fresh, stored_in, last_system, last_stack, final_state, for_passes};

use crate::records::address_state::{DecoderState, Positions};
use crate::records::continuation::{Captured, Continuation, StoredValues};
use crate::records::state::{StackCols, SystemCols};

#[derive(Clone, Copy)]
pub struct CoreTraceGenerationTracer {
    // The number of a kept refusal, 0 if there is none. A number and no Option of a `Refusal`, here and in what is answered of a tracer: one
    // that a caller makes may have any.
    pub refusal: u32,
    // How many rows of the fragment are written.
    pub row_write_index: usize,
    pub continuation: Option<Continuation>,
    pub is_loop_body: bool,
    pub captured: Captured,
    pub decoder_state: DecoderState,
    pub at: Positions,
    // The cells built at the last row.
    pub system_cols: SystemCols,
    pub stack_cols: StackCols,
}

// What storing answers: the kept refusal's number or 0, and the tracer.
#[derive(Clone, Copy)]
pub struct Stored {
    pub refusal: u32,
    pub tracer: CoreTraceGenerationTracer,
}

// The last built cells and the row count; on a kept refusal its number, zeros and 0.
#[derive(Clone, Copy)]
pub struct TracerFinalState {
    pub refusal: u32,
    pub last_system_cols: SystemCols,
    pub last_stack_cols: StackCols,
    pub num_rows_written: usize,
}

// What the passes take of a fragment: its row count, and the 25 cells built last (clk, ctx, fn_hash 4; top 16, b0, b1, helper).
#[derive(Clone, Copy)]
pub struct FragmentEnd {
    pub count: u32,
    pub built: [u64; 25],
}

impl CoreTraceGenerationTracer {
    // A fresh tracer: nothing stored, no refusal, no row. The addresses are read modulo p.
    #[tactic(auto, unfolding(crate::specs::cycles::Cycles::fresh))]
    pub fn new(state: DecoderState, at: Positions) -> Self
        ensures { result ≡ fresh state at }
    {
        Self {
            refusal: 0,
            row_write_index: 0,
            continuation: None,
            is_loop_body: false,
            captured: Captured {
                finish_loop_condition: None,
                dyn_callee_hash: None,
                ctx_info: None,
            },
            decoder_state: state.read(),
            at,
            system_cols: SystemCols::zeros(),
            stack_cols: StackCols::zeros(),
        }
    }

    // Stores the values for the next finish, their cells read modulo p. It checks none of them.
    #[tactic(auto, unfolding(crate::specs::cycles::Cycles::stored_in))]
    pub fn start_clock_cycle(self, values: StoredValues) -> Stored
        ensures { (result.refusal ≡ self.refusal) × (result.tracer ≡ stored_in self values) }
    {
        if self.refusal != 0 {
            return Stored {
                refusal: self.refusal,
                tracer: self,
            };
        }
        let tracer = Self {
            continuation: Some(values.continuation),
            is_loop_body: values.is_loop_body,
            captured: values.captured.read(),
            ..self
        };
        Stored { refusal: 0, tracer }
    }

    // The system cells of the next row: those built last, zeros before the first row.
    #[tactic(auto, unfolding(crate::specs::cycles::Cycles::last_system))]
    pub(crate) fn last_system(self) -> SystemCols
        ensures { result ≡ last_system self }
    {
        if self.row_write_index == 0 {
            return SystemCols::zeros();
        }
        self.system_cols
    }

    // The stack cells of the next row.
    #[tactic(auto, unfolding(crate::specs::cycles::Cycles::last_stack))]
    pub(crate) fn last_stack(self) -> StackCols
        ensures { result ≡ last_stack self }
    {
        if self.row_write_index == 0 {
            return StackCols::zeros();
        }
        self.stack_cols
    }

    // The final state of the fragment, its cells read modulo p.
    #[tactic(auto, unfolding(crate::specs::cycles::Cycles::final_state))]
    pub fn into_final_state(self) -> TracerFinalState
        ensures { result ≡ final_state self }
    {
        if self.refusal != 0 {
            return TracerFinalState {
                refusal: self.refusal,
                last_system_cols: SystemCols::zeros(),
                last_stack_cols: StackCols::zeros(),
                num_rows_written: 0,
            };
        }
        TracerFinalState {
            refusal: 0,
            last_system_cols: self.last_system().read(),
            last_stack_cols: self.last_stack().read(),
            num_rows_written: self.row_write_index,
        }
    }
}

// A row count in 32 bits, the largest such number where it does not fit.
fn count_for_passes(rows: usize) -> u32
    ensures { result ≡ min 4294967295 rows }
{
    u32::try_from(rows).unwrap_or(u32::MAX)
}

// The 25 cells, those of the system first.
#[tactic(auto, unfolding(crate::specs::records::Built::system_cells, crate::specs::records::Built::stack_cells))]
fn built_cells(system: SystemCols, stack: StackCols) -> [u64; 25]
    ensures { result ≡ system_cells system ++ stack_cells stack }
{
    let hash = system.fn_hash;
    let t = stack.top;
    [
        system.clk, system.ctx, hash.0, hash.1, hash.2, hash.3, t[0], t[1], t[2], t[3], t[4], t[5],
        t[6], t[7], t[8], t[9], t[10], t[11], t[12], t[13], t[14], t[15], stack.b0, stack.b1,
        stack.h0,
    ]
}

impl TracerFinalState {
    // What the passes take. Calls write at most 2^24 rows, so their count fits 32 bits. A tracer that somebody else made may count more; what
    // is handed over is then above 2^24 too, and every pass that takes counts refuses it (11).
    #[tactic(auto, unfolding(crate::specs::cycles::Cycles::for_passes))]
    pub fn for_passes(self) -> FragmentEnd
        ensures { result ≡ for_passes self }
    {
        let built = built_cells(self.last_system_cols, self.last_stack_cols);
        FragmentEnd {
            count: count_for_passes(self.num_rows_written),
            built,
        }
    }
}
