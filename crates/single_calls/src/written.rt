//! The questions whose lines were written.
ghost use Rattle.std.specs.Prelude.{◌≡◌, [], ◌∷◌, map, OnOk, string_bytes};
ghost use Rattle.cert_store.specs.Questions.{seen};
ghost use Rattle.single_calls.specs.Written.{Writes};

use call_judging::question_line;
use cert_store::Question;
use std::alloc::{AllocError, Global};
use std::collections::HashSet;
use std::marker::Model;

/// A question as it is kept.
#[derive(Clone, Copy, PartialEq, Eq, Hash)]
pub(crate) struct Triple {
    pub(crate) key: [u8; 65],
    pub(crate) digest: [u8; 32],
    pub(crate) signature: [u8; 64],
}

/// The questions whose lines were written. In contracts it is the list of these, in no order that a contract names.
#[derive(Drop)]
pub(crate) struct Written {
    triples: HashSet<Triple>,
}

impl Model for Written {
    ghost use Rattle.std.specs.Prelude.{List};
    ghost use Rattle.single_calls.specs.declared.written.Triple.{Triple};

    ghost Value = { List Triple };

    ghost view = { λ w. w.triples.keys };
}

impl Written {
    /// None.
    pub(crate) fn new(alloc: Global) -> Written
        ensures { result ≡ [] }
    {
        Written {
            triples: HashSet::new(alloc),
        }
    }

    /// Writes the line of a question after the text, unless it was written before. `AllocError` is the only error.
    pub(crate) fn add(
        &mut self,
        alloc: Global,
        question: &Question<'_>,
        text: &mut String,
    ) -> Result<(), AllocError>
        ensures { OnOk result
            (Writes self.old self.new (string_bytes text.old) (string_bytes text.new) (seen question.now ∷ [])) }
    {
        let triple = Triple {
            key: *question.key,
            digest: *question.digest,
            signature: *question.signature,
        };
        if !self.triples.insert(triple)? {
            return Ok(());
        }
        let line = question_line(alloc, question)?;
        text.push_str(line.as_str())?;
        Ok(())
    }
    /// Writes those of several, in their order.
    #[tactic(auto, using(crate::proofs::AskSteps::none_yet, crate::proofs::AskSteps::all_written))]
    pub(crate) fn add_all(
        &mut self,
        alloc: Global,
        questions: &[Question<'_>],
        text: &mut String,
    ) -> Result<(), AllocError>
        ensures { OnOk result
            (Writes self.old self.new (string_bytes text.old) (string_bytes text.new) (map seen questions.now)) }
    {
        'questions: for question in questions {
            self.add(alloc, question, text)?;
        }
        Ok(())
    }
}
