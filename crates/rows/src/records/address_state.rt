// The address state of the decoder, and the lent queues that move it: block addresses, parent addresses, and three cells an END.
ghost use Rattle.std.specs.Prelude.{◌≡◌, ℕ};
ghost use Rattle.groups.specs.Answer.{and_then, accepted};
ghost use Rattle.groups.specs.Constants.{end_queue_empty};
ghost use Rattle.groups.specs.Refusals.{told, told_or};
ghost use Rattle.rows.specs.records.Addresses.{read_state, started_at, after_start, start_answer, start_state, end_answer, end_state, respan_step, entry_at, end_at};
ghost use Rattle.rows.specs.ways.Inner.{started, ended};

use field::cell::cell;
use field::felt::{add, reduce};
use groups::refusal::Refusal;

#[repr(C)]
#[derive(Clone, Copy)]
pub struct DecoderState {
    pub current_addr: u64,
    pub parent_addr: u64,
}

// How many entries of each queue are used.
#[repr(C)]
#[derive(Clone, Copy)]
pub struct Positions {
    pub addresses: usize,
    pub parents: usize,
    pub ends: usize,
}

// Where a cycle stands: the address state and the queue positions.
#[derive(Clone, Copy)]
pub struct Cursor {
    pub state: DecoderState,
    pub at: Positions,
}

// An entry of the end queue: the address that ends, and the state after it.
#[derive(Clone, Copy)]
pub struct NodeEndData {
    pub ended_node_addr: u64,
    pub prev_addr: u64,
    pub prev_parent_addr: u64,
}

// The three queues.
#[derive(Clone, Copy)]
pub struct LentQueues<'a> {
    pub addresses: &'a [u64],
    pub parents: &'a [u64],
    pub ends: &'a [u64],
}

// The entry at a position of a queue of single cells.
#[tactic(auto, unfolding(crate::specs::records::Addresses::entry_at))]
fn entry_at(queue: &[u64], at: usize) -> Option<u64>
    ensures { (refusal : ℕ) → told_or refusal result ≡ entry_at refusal queue.now at }
{
    if queue.len() <= at {
        return None;
    }
    Some(cell(queue, at))
}

impl<'a> LentQueues<'a> {
    // The entry at a position of the end queue.
    #[tactic(auto, unfolding(crate::specs::records::Addresses::end_at))]
    pub fn end_at(&self, at: usize) -> Option<NodeEndData>
        ensures { told_or end_queue_empty result ≡ end_at self.now.ends.now at }
    {
        if self.ends.len() / 3 <= at {
            return None;
        }
        Some(NodeEndData {
            ended_node_addr: cell(self.ends, 3 * at),
            prev_addr: cell(self.ends, 3 * at + 1),
            prev_parent_addr: cell(self.ends, 3 * at + 2),
        })
    }

    // A node starts: its address and its parent's come from their queues. 20, 21: a queue is used up.
    #[tactic(auto, unfolding(crate::specs::records::Addresses::started_at, crate::specs::records::Addresses::entry_at))]
    fn start_step(&self, at: Positions) -> Result<Cursor, Refusal>
        ensures { told result ≡ started self.now.addresses.now self.now.parents.now at }
    {
        let Some(current_addr) = entry_at(self.addresses, at.addresses) else {
            return Err(Refusal::AddressQueueEmpty);
        };
        let Some(parent_addr) = entry_at(self.parents, at.parents) else {
            return Err(Refusal::ParentQueueEmpty);
        };
        Ok(Cursor {
            state: DecoderState {
                current_addr,
                parent_addr,
            },
            at: Positions {
                addresses: at.addresses + 1,
                parents: at.parents + 1,
                ends: at.ends,
            },
        })
    }

    // A node ends: the queue's entry gives its address and the state after it. 22: the queue is used up.
    #[tactic(auto, unfolding(crate::specs::records::Addresses::end_at))]
    fn end_step(&self, at: Positions) -> Result<(u64, Cursor), Refusal>
        ensures { told result ≡ ended self.now.ends.now at }
    {
        let Some(entry) = self.end_at(at.ends) else {
            return Err(Refusal::EndQueueEmpty);
        };
        let behind = Cursor {
            state: DecoderState {
                current_addr: entry.prev_addr,
                parent_addr: entry.prev_parent_addr,
            },
            at: Positions {
                addresses: at.addresses,
                parents: at.parents,
                ends: at.ends + 1,
            },
        };
        Ok((entry.ended_node_addr, behind))
    }
}

impl DecoderState {
    // The addresses read modulo p.
    #[tactic(auto, unfolding(crate::specs::records::Addresses::read_state))]
    pub fn read(self) -> Self
        ensures { result ≡ read_state self }
    {
        Self {
            current_addr: reduce(self.current_addr),
            parent_addr: reduce(self.parent_addr),
        }
    }

    // A node starts, on a lent state: from then on it names that node and its parent. 20, 21 leave it as it was.
    #[tactic(auto, unfolding(crate::specs::records::Addresses::start_answer, crate::specs::records::Addresses::start_state))]
    pub fn replay_node_start(
        &mut self,
        queues: &LentQueues,
        at: Positions,
    ) -> Result<Positions, Refusal>
        ensures value { told result ≡ start_answer queues.now.addresses.now queues.now.parents.now at }
        ensures state { self.new ≡ start_state queues.now.addresses.now queues.now.parents.now at self.old }
    {
        let behind = queues.start_step(at)?;
        *self = behind.state;
        Ok(behind.at)
    }

    // A node ends, on a lent state: from then on it names the node around it. 22 leaves it as it was.
    #[tactic(auto, unfolding(crate::specs::records::Addresses::end_answer, crate::specs::records::Addresses::end_state))]
    pub fn replay_node_end(
        &mut self,
        queues: &LentQueues,
        at: Positions,
    ) -> Result<(u64, Positions), Refusal>
        ensures value { told result ≡ end_answer queues.now.ends.now at }
        ensures state { self.new ≡ end_state queues.now.ends.now at self.old }
    {
        let (addr, behind) = queues.end_step(at)?;
        *self = behind.state;
        Ok((addr, behind.at))
    }
}

// A new batch: the current address grows by the step modulo p.
#[tactic(auto, unfolding(crate::specs::records::Addresses::respan_step))]
pub fn respan_step(state: DecoderState, step: u64) -> DecoderState
    ensures { result ≡ respan_step step state }
{
    DecoderState {
        current_addr: add(state.current_addr, step),
        parent_addr: state.parent_addr,
    }
}
