//! What holds of every disk of the model.
ghost use Rattle.std.specs.Prelude.{List, ℕ};
ghost use Rattle.co_base.specs.declared.leaves.Leaves.{Leaves};
ghost use Rattle.co_base.specs.declared.leaves.Leaves.TheVariants.{Filled};
ghost use Rattle.co_disk.specs.DiskModel.{DiskState, IsChosen, IsImage, IsSound, read_of};

/// Every chosen image is an image, every image is some filling, and what a read gives is an image.
pub fn chosen_are_images()
    ensures chosen { (disk : DiskState) (leaves : Leaves) (bytes : List ℕ) → IsSound disk → IsChosen disk leaves bytes → IsImage disk bytes }
    ensures filled { (disk : DiskState) (bytes : List ℕ) → IsSound disk → IsImage disk bytes → (fill : List ℕ) × IsChosen disk (Filled fill) bytes }
    ensures read { (disk : DiskState) → IsSound disk → IsImage disk (read_of disk) }
{}
