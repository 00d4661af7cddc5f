// What follows from how a command ends.
ghost use Rattle.std.specs.Prelude.{ℕ, List};
ghost use Rattle.skopeo_outside.specs.Tree.{Tree};
ghost use Rattle.skopeo_app.specs.declared.task.CopyTask.{CopyTask};
ghost use Rattle.skopeo_app.specs.Complete.{EndsByTree, GoodEnds};

/// Completeness: a command that names a copy between two folders, over lanes that start with the same blobs, ends as the
/// first lane's tree says, where no count of faults rose and memory did not want; and a good copy ends with status 0.
pub fn folder_copies()
    ensures answer { (words : List (List ℕ)) (home cwd : List ℕ) (task : CopyTask) (source dest : List ℕ) (tree : Tree)
        → EndsByTree words home cwd task source dest tree }
    ensures good { (words : List (List ℕ)) (home cwd : List ℕ) (task : CopyTask) (source dest : List ℕ) (tree : Tree)
        → GoodEnds words home cwd task source dest tree }
{}
