//! How many bits a subtree has (OGC 22-025r4, "Availability Bitstreams").

ghost use Rattle.std.specs.Prelude.{◌≡◌, ◌≤◌};
ghost use Rattle.subtree_binary.specs.Counts as counts;
ghost use Rattle.subtree_binary.specs.Counts.{level_limit};

/// Into how many cells a cell is divided.
fn arity(octree: bool) -> u64
    ensures { result ≡ counts.arity octree }
{
    if octree { 8 } else { 4 }
}

/// How many child subtrees begin below so many levels.
pub fn child_count(octree: bool, levels: u8) -> u64
    requires { levels ≤ level_limit octree }
    ensures { result ≡ counts.child_count octree levels }
{
    arity(octree).pow(u32::from(levels))
}

/// How many tiles there are on so many levels.
pub fn tile_count(octree: bool, levels: u8) -> u64
    requires { levels ≤ level_limit octree }
    ensures { result ≡ counts.tile_count octree levels }
{
    (child_count(octree, levels) - 1) / (arity(octree) - 1)
}
