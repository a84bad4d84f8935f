//! Laws: a function here does nothing, and its clauses are the law.
ghost use Rattle.std.specs.Prelude.{◌≡◌, ℕ, List, Option};
ghost use Rattle.stir_files.specs.Event.{event_line, fault_status};
ghost use Rattle.stir_files.specs.Going.{going_files};
ghost use Rattle.stir_files.specs.Inputs.{file_of};
ghost use Rattle.stir_files.specs.Materials.{files_of};
ghost use Rattle.stir_files.specs.Named.{NamedFile};
ghost use Rattle.stir_files.specs.Retargeting.{retargeting_files};
ghost use Rattle.stir_files.specs.Rows.{IsSaid, asking_rows, going_rows, judging_rows, retargeting_rows, row, row_of};
ghost use Rattle.stir_files.specs.Rows.{rows_in, signing_rows};
ghost use Rattle.stir_files.specs.Signing.{signing_files};
ghost use Rattle.stir_files.specs.World.{world_files};
ghost use Rattle.stir_files.specs.declared.fault.FileFault.{FileFault};
ghost use Rattle.stir_files.specs.declared.input_file.InputFile.{InputFile};
ghost use Rattle.stir_outside.specs.Status.{status_number};
ghost use Rattle.stir_words.specs.Order.{AskingView, HolderNames, JudgingView, RetargetingView};

/// Which files are read, in which order and of how many bytes at most, and in which words and with which status a fault
/// of one is said: row by row.
#[tactic(auto, using(crate::proofs::RowLaws::signing_are, crate::proofs::RowLaws::kinds_are, crate::proofs::RowLaws::faults_are))]
pub fn rows_law()
    ensures judging { (judging : JudgingView) → rows_in (files_of judging) ≡ judging_rows judging }
    ensures going { (judging : JudgingView) (state : List ℕ)
        → rows_in (going_files judging state) ≡ going_rows judging state }
    ensures asking { (asking : AskingView) → rows_in (world_files asking) ≡ asking_rows asking }
    ensures signing { (answers : List ℕ) (holder : Option HolderNames)
        → rows_in (signing_files answers holder) ≡ signing_rows answers holder }
    ensures retargeting { (words : RetargetingView) → rows_in (retargeting_files words) ≡ retargeting_rows words }
    ensures kinds { (file : InputFile) → row (file_of file).name (file_of file).limit ≡ row_of file }
    ensures faults { (name : List ℕ) (fault : FileFault)
        → IsSaid name fault (event_line name fault) (status_number (fault_status fault)) }
{}
