//! What follows of what a crash may leave, as contracts of a function that does nothing.
ghost use Rattle.std.specs.Prelude.{◌≡◌, ℕ, ◌≤◌, Bool, true, List, ◌∷◌, length};
ghost use Rattle.hex.specs.Hex.{IsBytes};
ghost use Rattle.disk_model.specs.declared.call.Call.{Call};
ghost use Rattle.disk_model.specs.declared.call.Call.TheVariants.{Write, Sync};
ghost use Rattle.disk_model.specs.Story.{Image, seen_after};
ghost use Rattle.disk_model.specs.Left.{AreBytes, LeftAfter};
ghost use Rattle.disk_model.specs.Torn.{Torn};

/// Laws of images: what a read gives may always be left, and an image holds bytes; after a sync that succeeds an
/// image is what a read gives, and no sync leaves what might not have been left before; a write over a file whose
/// only image is what a read gives, done or not, leaves it torn in the piece's range and nowhere else.
pub fn images_by_law()
    ensures read { (first : Image) (calls : List Call) (f : ℕ) → AreBytes first calls → LeftAfter first calls f (seen_after first calls f) }
    ensures bytes { (first : Image) (calls : List Call) (f : ℕ) (file : List ℕ) → LeftAfter first calls f file → IsBytes file }
    ensures synced { (first : Image) (past : List Call) (f : ℕ) (file : List ℕ) → LeftAfter first (Sync f true ∷ past) f file → file ≡ seen_after first past f }
    ensures fewer { (first : Image) (past : List Call) (g f : ℕ) (done : Bool) (file : List ℕ) → LeftAfter first (Sync g done ∷ past) f file → LeftAfter first past f file }
    ensures torn { (first : Image) (past : List Call) (f at : ℕ) (piece : List ℕ) (done : Bool) (file : List ℕ)
        → ((old : List ℕ) → LeftAfter first past f old → old ≡ seen_after first past f) → at ≤ length (seen_after first past f)
        → LeftAfter first (Write f at piece done ∷ past) f file → Torn at (length piece) (seen_after first past f) file }
{}
