//! The files of the root.

ghost use Rattle.std.specs.Prelude.{◌≡◌, map};
ghost use Rattle.go_syntax.specs.View.{file_view};
ghost use Rattle.go_load.specs.Packages.{paths_view};
ghost use Rattle.go_stmt.specs.Checks.{root_trees};

use go_load::Paths;
use go_syntax::tree::File;

/// The trees of the root, which is the first package.
pub fn root_files(packages: &Paths) -> &[File]
    ensures trees { map file_view result.now ≡ root_trees (paths_view packages.now) }
{
    match packages.get(0) {
        Some(root) => root.files.as_slice(),
        None => &[],
    }
}
