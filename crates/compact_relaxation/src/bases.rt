// The bases of nodes that were forked, for the nodes below them.
use dual_simplex::Basis;
use search_laws::Side;
use std::alloc::Global;
use std::collections::BTreeMap;

// How many bytes kept bases may take.
const MOST_BYTES: usize = 1 << 26;

/// A forked node, for the nodes below it.
#[derive(Drop)]
pub struct Forked {
    /// The basis of its relaxation's optimum.
    pub basis: Basis,
    /// The value of its relaxation, in ones, without the constant.
    pub value: f64,
    /// The variable that it was forked at.
    pub var: u32,
    /// How far the value of this variable was above a whole number, from 0 to 1.
    pub part: f64,
    /// How many of the two nodes below are still to come.
    pub left: u32,
}

/// The forked nodes whose bases are kept.
#[derive(Drop)]
pub struct Bases {
    /// The nodes by the keys of their paths.
    forked: BTreeMap<u64, Forked>,
    /// How much memory their bases take, in bytes.
    bytes: usize,
}

impl Bases {
    pub fn make(alloc: Global) -> Bases {
        Bases {
            forked: BTreeMap::new(alloc),
            bytes: 0,
        }
    }

    /// The forked node of a key.
    pub fn get(&self, key: u64) -> Option<&Forked> {
        self.forked.get(&key)
    }

    /// Notes that one of the two nodes below a forked node came; behind the second its basis is forgotten.
    pub fn spend(&mut self, key: u64) {
        let is_last = match self.forked.get_mut(&key) {
            None => false,
            Some(forked) => {
                forked.left = forked.left.saturating_sub(1);
                forked.left == 0
            }
        };
        if is_last {
            if let Some(forked) = self.forked.remove(&key) {
                self.bytes = self.bytes.saturating_sub(forked.basis.size());
            }
        }
    }

    /// Keeps a forked node. Where there is no room, others are forgotten.
    pub fn keep(&mut self, key: u64, forked: Forked) -> Result<(), std::alloc::AllocError> {
        let size = forked.basis.size();
        for _ in 0..self.forked.len() {
            if self.bytes.saturating_add(size) <= MOST_BYTES {
                break;
            }
            if let Some((_, old)) = self.forked.pop_first() {
                self.bytes = self.bytes.saturating_sub(old.basis.size());
            }
        }
        self.bytes = self.bytes.saturating_add(size);
        let _ = self.forked.insert(key, forked)?;
        Ok(())
    }
}

/// The key of a path.
pub fn key_of(path: &[Side]) -> u64 {
    let mut key: u64 = 0x9e37_79b9_7f4a_7c15;
    for side in path {
        let step = match side {
            Side::Low => 0x2545_f491_4f6c_dd1d,
            Side::High => 0x1656_67b1_9e37_79f9,
        };
        key = (key ^ step).wrapping_mul(0x0000_0100_0000_01b3);
        key = key ^ (key >> 29);
    }
    key
}
