//! Laws of a checkpoint's names and bytes. Each stands on a function that does nothing.
ghost use Rattle.std.specs.Prelude.{◌≡◌, ◌≢◌, ◌<◌, ℕ, suc, List};
ghost use Rattle.lru_folder.specs.Names.{has_slash};
ghost use Rattle.lru_frames.specs.declared.frame.Header.{Header};
ghost use Rattle.lru_frames.specs.declared.mark.Mark.{Mark};
ghost use Rattle.lru_frames.specs.declared.row.Row.{Row};
ghost use Rattle.lru_frames.specs.Frame.{frame_of, Fits};
ghost use Rattle.lru_generations.specs.declared.names.PartName.{PartName};
ghost use Rattle.lru_generations.specs.Manifests.{IsManifest, manifest_bytes};
ghost use Rattle.lru_generations.specs.Names.{IsPart, part_path, part_text};

use lru_frames::stored::Stored;

/// Two files have two names and two paths: those of two generations, of two shards or of two kinds, and also
/// those of checkpoints that are called differently.
pub fn different_names()
    ensures names { (file_name other : List ℕ) (part another : PartName) → IsPart part → IsPart another
        → part_text file_name part ≡ part_text other another → (file_name ≡ other) × (part ≡ another) }
    ensures paths { (dir file_name other : List ℕ) (part another : PartName) → IsPart part → IsPart another
        → part_path dir file_name part ≡ part_path dir other another → (file_name ≡ other) × (part ≡ another) }

    // The name of a file has a slash only where what the checkpoint is called has one.
    ensures slash { (file_name : List ℕ) (part : PartName) → IsPart part → has_slash (part_text file_name part) ≡ has_slash file_name }
{}

/// The frame of a shard, which is not the last part of its checkpoint, is no manifest.
pub fn no_frame_is_a_manifest<K: Stored, V: Stored>()
    ensures { (header : Header) (rows : List (Row K V)) (generation : ℕ) (marks : List Mark)
        → Fits K.is_value V.is_value header rows → IsManifest generation marks → suc header.shard < header.shards
        → frame_of K.bytes_of V.bytes_of header rows ≢ manifest_bytes generation marks }
{}

/// A manifest's bytes tell its generation and all its marks.
pub fn one_manifest()
    ensures { (generation other : ℕ) (marks others : List Mark) → IsManifest generation marks → IsManifest other others
        → manifest_bytes generation marks ≡ manifest_bytes other others → (generation ≡ other) × (marks ≡ others) }
{}
