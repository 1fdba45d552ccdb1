// What a replay is lent and goes on from, each read of a list, and what it leaves.
use groups::batch::LentBatches;
use rows::records::address_state::{Cursor, DecoderState, LentQueues, Positions};
use rows::records::forest::LentForest;
use rows::records::profile::Profile;
use rows::replay::calls::{Replayed, replay_calls};
use vectors_shared::numbers::{Numbers, Part};

// The parts of a run, in their order.
#[derive(Clone, Copy)]
pub struct Parts<'a> {
    nodes: Part<u32, 192>,
    digests: &'a [u64],
    batches: Part<u32, 192>,
    groups: &'a [u64],
    ops: Part<u8, 256>,
    directory: Part<u32, 36>,
    addresses: &'a [u64],
    parents: &'a [u64],
    ends: &'a [u64],
}

impl<'a> Parts<'a> {
    // The parts that begin the list, and the numbers behind them.
    pub fn read(list: Numbers<'a>) -> (Self, Numbers<'a>) {
        let (nodes, rest) = list.split_copy();
        let (digests, rest) = rest.split_part();
        let (batches, rest) = rest.split_copy();
        let (groups, rest) = rest.split_part();
        let (ops, rest) = rest.split_copy();
        let (directory, rest) = rest.split_copy();
        let (addresses, rest) = rest.split_part();
        let (parents, rest) = rest.split_part();
        let (ends, rest) = rest.split_part();
        let parts = Self {
            nodes,
            digests,
            batches,
            groups,
            ops,
            directory,
            addresses,
            parents,
            ends,
        };
        (parts, rest)
    }

    // Replays the records on the fragment.
    pub fn replay(
        &self,
        profile: Profile,
        from: Cursor,
        records: &[u64],
        fragment: &mut [u64],
    ) -> Replayed {
        let forests = LentForest {
            nodes: self.nodes.lent(),
            digests: self.digests,
            batches: LentBatches {
                records: self.batches.lent(),
                groups: self.groups,
            },
            ops: self.ops.lent(),
        };
        let queues = LentQueues {
            addresses: self.addresses,
            parents: self.parents,
            ends: self.ends,
        };
        let directory = self.directory.lent();
        replay_calls(
            &forests, directory, &queues, profile, from, records, fragment,
        )
    }
}

// What the first fragment goes on from: the two cells of its address state, and no entry of a queue used.
pub fn first_cursor(list: Numbers<'_>) -> Cursor {
    Cursor {
        state: DecoderState {
            current_addr: list.number(0),
            parent_addr: list.number(1),
        },
        at: Positions {
            addresses: 0,
            parents: 0,
            ends: 0,
        },
    }
}

// Whether the list begins with what the replay left beside its number: rows, built cells (25), address state (2) and queue positions (3).
pub fn begins_with_left(list: Numbers<'_>, left: &Replayed) -> bool {
    let behind = [
        left.state.current_addr,
        left.state.parent_addr,
        left.at.addresses as u64,
        left.at.parents as u64,
        left.at.ends as u64,
    ];
    list.begins_with(&[left.rows as u64])
        && list.behind(1).begins_with(&left.built)
        && list.behind(26).begins_with(&behind)
}
