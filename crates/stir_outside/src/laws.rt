//! Laws: a function here does nothing, and its clauses are the law.
ghost use Rattle.std.specs.Prelude.{◌≡◌, ℕ, List, Option};
ghost use Rattle.stir_outside.specs.Files.{AreBytes, Files, HoldBytesWhere, bytes_of};

/// What the files of a shelf hold are bytes, if the shelf tells them; and bytes are held as they are.
#[tactic(auto, using(crate::proofs::FileLaws::hold_where, crate::proofs::FileLaws::same_bytes))]
pub fn files_law()
    ensures bytes { (files : Option Files) → HoldBytesWhere files }
    ensures same { (content : List ℕ) → AreBytes content → bytes_of content ≡ content }
{}
