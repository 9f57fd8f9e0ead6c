#![tactic(auto)]
//! The tree that the linked nodes of an index make: what every update keeps, and what a walk finds.
//!
//! The crate has theorems only. They speak of nodes' contents, and of no cells, seats or steps.
ghost use Rattle.tree.specs.Stands.{TreeStands, LawfulHasRanks};

/// A walk from the root comes to the node that covers its key, and every update that a release can make keeps the
/// tree sound, its other walkers where they may stand, and its leaves in agreement with the map.
pub fn tree_stands()
    ensures { TreeStands }
{}

/// Every lawful order gives each key below a limit a rank, so that one key comes before another exactly when its
/// rank is lower.
pub fn ranks_stand()
    ensures { LawfulHasRanks }
{}
