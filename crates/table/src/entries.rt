ghost use Rattle.std.proofs.Common.{rules};

use super::lookup::Entry;

/// A routine, as it is looked up: its identifier, how many parameters it takes, and the place of its
/// heading.
#[derive(Clone, Copy, PartialEq, Eq, Debug)]
pub struct RoutineEntry {
    pub identifier: u8,
    pub parameters: u8,
    pub place: usize,
}

impl Entry for RoutineEntry {
    type Key = u8;

    ghost keyed = { λ e. e.identifier };

    // the law of the key, which each impl has to show
    ghost agrees = { Prim.search rules };

    fn key(&self) -> u8 {
        self.identifier
    }
}

/// What tells blocks apart: the routine that they are in, and their label.
#[derive(Clone, Copy, PartialEq, Eq, Debug)]
pub struct BlockKey {
    pub routine: u8,
    pub label: u8,
}

/// A block, as it is looked up: its key and the place of its heading.
#[derive(Clone, Copy, PartialEq, Eq, Debug)]
pub struct BlockEntry {
    pub key: BlockKey,
    pub place: usize,
}

impl Entry for BlockEntry {
    type Key = BlockKey;

    ghost keyed = { λ e. e.key };

    // the law of the key, which each impl has to show
    ghost agrees = { Prim.search rules };

    fn key(&self) -> BlockKey {
        self.key
    }
}
