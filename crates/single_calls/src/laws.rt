//! Laws: a function here does nothing, and its clauses are the law.
ghost use Rattle.std.specs.Prelude.{◌≡◌, ◌↔◌, List, [], Option, Some, true};
ghost use Rattle.call_log.specs.Entry.{Entry};
ghost use Rattle.single_calls.specs.Answer.{AnswerView, all_well, texts_of};
ghost use Rattle.single_calls.specs.Answering.{AreAnswered};
ghost use Rattle.cert_store.specs.Questions.{AgreeOn};
ghost use Rattle.cert_store.specs.Rules.{QuestionView, Says};
ghost use Rattle.call_judging.specs.AskedFor.{IsAmong};
ghost use Rattle.single_calls.specs.Agreement.{JudgedAlike};
ghost use Rattle.single_calls.specs.Asker.{AskedBy, AskerView, asking_world};
ghost use Rattle.single_calls.specs.Asked.{IsAskedOf, IsOnce};
ghost use Rattle.single_calls.specs.Asks.{Asks, asked_of};
ghost use Rattle.stir_outside.specs.Files.{Files};
ghost use Rattle.verify_rules.specs.World.{World, with_says};
ghost use Rattle.verify_rules.specs.declared.settings.Settings.{Settings};

use call_judging::{call_agreement_law, call_questions_law};

/// What is asked call by call is what is asked for the log, and nothing is wrong with any call of it.
pub fn asks_law()
    ensures texts { (asker : AskerView) (files : Files) (calls : List Entry) (answers : List AnswerView)
        → AreAnswered (AskedBy asker (Some files)) [] calls answers
        → texts_of answers ≡ Asks (asking_world asker.materials files) asker.settings calls }
    ensures well { (asker : AskerView) (told : Option Files) (calls : List Entry) (answers : List AnswerView)
        → AreAnswered (AskedBy asker told) [] calls answers → all_well answers ≡ true }
{}

/// Which questions are asked for the calls of a log: exactly those that one of the calls asks, whichever its place is,
/// and each once.
pub fn asked_law()
    ensures listed { (world : World) (settings : Settings) (calls : List Entry) (asked : QuestionView)
        → IsAmong asked (asked_of world settings calls) ↔ IsAskedOf world settings calls asked }
    ensures once { (world : World) (settings : Settings) (calls : List Entry) → IsOnce (asked_of world settings calls) }
{
    call_questions_law();
}

/// What is asked depends on no provider. If two providers agree on all of it, each call breaks the same rule first by
/// both, or none.
pub fn agreement_law()
    ensures same { (world : World) (other : Says) (settings : Settings) (calls : List Entry)
        → asked_of (with_says world other) settings calls ≡ asked_of world settings calls }
    ensures alike { (world : World) (settings : Settings) (says other : Says) (calls : List Entry)
        → AgreeOn says other (asked_of world settings calls) → JudgedAlike world settings says other calls }
{
    call_agreement_law();
}
