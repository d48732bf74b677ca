//! How the items of a node or a level are divided: Guttman's choices by the measures of covers, the
//! quadratic split of a full node, and the order of a level's pages by Sort-Tile-Recursive.
#![tactic(auto)]

pub mod choices;
pub mod measures;
pub mod split;
pub mod tile;
