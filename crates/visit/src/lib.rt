// What a visit of a node puts to its questions: 7, 8, 9, 11 as far as its parts were used before, and 13 to 16. The fields and the
// fact of a node at which nothing fails, for crate `quick`; what that is stuck at is put to `exact`.
#![tactic(auto)]

pub mod exact; // exact.rt: what exactly fails at a node
pub mod facts; // facts.rt: what questions 13 to 17 go by, a bit a node
pub mod fields; // fields.rt: the fields of a node at which nothing fails
pub mod least; // least.rt: refusals as numbers
pub mod noted; // noted.rt: the leaves, a bit a node

// A visit of a node, which may call procedures below `limit`.
#[derive(Clone, Copy)]
pub struct Visit {
    pub node: usize,
    pub limit: usize,
}

// The words of a plane, a bit for each of 256 nodes, and of the planes: the nodes used, the facts, and the leaves.
pub const PLANE: usize = 8;

pub const LEAVES: usize = 2 * PLANE;

pub const PLANES: usize = LEAVES + PLANE;

// The answer of a visit that could not be made; any other is the refusal by the node's rule, as far as that does not look at leaves.
pub const STUCK: usize = 0;
