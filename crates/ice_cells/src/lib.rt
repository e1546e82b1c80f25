//! The packed design as data: logic cells, the runs of their carries, pads and global buffers; and the clusters of eight cells
//! that go into one tile. `specs/` says what a design means, and which design a netlist has.
#![tactic(auto)]

mod cell;
mod cluster;
mod design;
mod follow;
mod inputs;
mod items;
mod origin;
mod pieces;
mod root;
mod share;

pub use cell::{Control, LogicCell};
pub use cluster::{Cluster, Clusters, TileCells};
pub use design::{Design, DesignPad, Run};
pub use follow::{Follow, Reader};
pub use inputs::{input_origin, is_dropped, is_table_kind};
pub use items::Items;
pub use origin::{Origin, Use};
pub use pieces::{control_at, first_control, piece, pieces_count};
pub use root::{CarryIn, Root};
pub use share::{Pair, Part, Role};
