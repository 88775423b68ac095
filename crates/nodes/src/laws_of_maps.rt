//! The laws of roots as finite maps from paths.
ghost use Rattle.nodes.specs.TreeLaws.{AllMaps, AllFileTrees};

/// What the finite map of a root has at each path, and what it lists of each directory; it is a
/// file tree.
pub fn map_laws()
    ensures maps { AllMaps }
    ensures file_trees { AllFileTrees }
{}
