//! Laws: a function here does nothing, and its clauses are the law.
ghost use Rattle.std.specs.Fmt.{decimal};
ghost use Rattle.std.specs.Prelude.{◌≡◌, ℕ, List, [], ◌∷◌, codes};
ghost use Rattle.auth_service.specs.declared.fault.SignFault.{SignFault};
ghost use Rattle.cert_store.specs.Rules.{QuestionView};
ghost use Rattle.live_desk.specs.declared.claim.LiveClaim.{LiveClaim};
ghost use Rattle.log_run.specs.Ending.{failed_line, refused_line, unread_line};
ghost use Rattle.once_run.specs.Lines.{claim_lines};
ghost use Rattle.retarget.specs.declared.fault.HopFault.{HopFault};
ghost use Rattle.call_judging.specs.AskLines.{ask_line};
ghost use Rattle.stir_cmd.specs.Answer.{long_line, refused_input};
ghost use Rattle.stir_cmd.specs.Gateway.{hop_line, too_long_line};
ghost use Rattle.stir_cmd.specs.Rows.{CanBeConfirmed, IsAskLine, IsHopLine, IsInputLine, IsSignLine, rows_from};
ghost use Rattle.stir_cmd.specs.Signing.{fault_line, form_line};
ghost use Rattle.stir_files.specs.Rows.{line_by};
ghost use Rattle.stir_outside.specs.Status.{status_number};

/// Which words and numbers the lines have that the program writes of a message that isn't signed or sent on, of
/// tickets, of a question, and of an input that it can't take: row by row.
#[tactic(auto, using(crate::proofs::LineLaws::sign_lines, crate::proofs::LineLaws::hop_lines, crate::proofs::LineLaws::claims_are, crate::proofs::LineLaws::ask_row, crate::proofs::LineLaws::refused_are, crate::proofs::LineLaws::failed_are, crate::proofs::LineLaws::unread_are))]
pub fn lines_law()
    ensures sign { (key : List ℕ) (fault : SignFault) → IsSignLine key fault (fault_line key fault) }
    ensures hop { (key : List ℕ) (fault : HopFault) → IsHopLine key fault (hop_line key fault) }
    ensures claims { (claims : List LiveClaim) → claim_lines claims ≡ rows_from 1 claims }
    ensures ask { (asked : QuestionView) → CanBeConfirmed asked → IsAskLine asked (ask_line asked) }
    // A message that is too long, for `sign` and `divert`, and for `retarget`; and any other input that is.
    ensures form { form_line ≡ line_by (codes "sign" ∷ codes "fault" ∷ codes "1" ∷ []) }
    ensures too_long { too_long_line ≡ line_by (codes "refused" ∷ codes "400" ∷ codes "1" ∷ codes "0.65535" ∷ []) }
    ensures long { long_line ≡ line_by (codes "long" ∷ codes "input" ∷ []) }
    // An input that is outside its grammar, or can't be read; and a file of certificates that can't be read.
    ensures outside { (place : ℕ) → IsInputLine (refused_input place).text (status_number (refused_input place).status)
        (codes "refused" ∷ codes "input" ∷ decimal place ∷ []) 5 }
    ensures refused { (place : ℕ)
        → refused_line place ≡ line_by (codes "refused" ∷ codes "input" ∷ decimal place ∷ []) }
    ensures failed { failed_line ≡ line_by (codes "read" ∷ codes "fault" ∷ codes "input" ∷ []) }
    ensures unread { (name : List ℕ) → unread_line name ≡ line_by (codes "read" ∷ codes "fault" ∷ name ∷ []) }
{}
