//! Calls judged by the rules of the chains over the chains of their PASSporTs: `screen` and then `finish` of
//! `verify_rules`.
ghost use Rattle.std.specs.Prelude.{◌≡◌};
ghost use Rattle.verify_rules.specs.States.{seen};
ghost use Rattle.vector_calls.specs.Known.{known_seen};

use crate::rules::{put_place, put_refusal};
use cert_store::Judged;
use delegation::Anchors;
use std::alloc::Global;
use stir_outside::AnswerProvider;
use tn_auth_list::CodeTable;
use vector_chains::{anchors_of, judged, table_of};
use vector_table::{Answer, Unread, answers_of, local_of, number, numbers_of};
use verify_rules::{ChainState, Chains, Screened, Settings, Verdict, finish, screen};

/// What a call answers.
pub fn answer(alloc: Global, call: &str, words: &[&[u8]]) -> Result<String, Unread> {
    match call {
        "finish" => finish_answer(alloc, words),
        _ => Err(Unread::Call),
    }
}

/// What the rules of the chains come to at a moment, when some calls of the provider fail.
fn finish_answer(alloc: Global, words: &[&[u8]]) -> Result<String, Unread> {
    let [
        moment,
        anchors,
        table,
        answers,
        failing,
        message,
        files @ ..,
    ] = words
    else {
        return Err(Unread::Call);
    };
    let anchors = anchors_of(alloc, anchors)?;
    let table = table_of(alloc, table)?;
    let answers = answers_of(alloc, answers)?;
    let failing = numbers_of(alloc, failing)?;
    let moment = number(moment)?;
    let screened = screened(alloc, message, moment)?;
    let case = Case {
        anchors: &anchors,
        table: &table,
        files,
    };
    let mut provider = answers.provider(failing.as_slice())?;
    let verdict = case.judge(alloc, &screened, moment, &mut provider)?;
    put_verdict(Answer::new(alloc), verdict)
        .word(provider.asks())
        .line()
}

/// A call that breaks none of the rules of the call, with country 1, national numbers of ten digits, and PASSporTs that
/// may be 60 seconds old and 5 ahead.
fn screened(alloc: Global, message: &[u8], moment: u64) -> Result<Screened, Unread> {
    let local = local_of(b"1", b"10")?;
    let settings = Settings {
        local,
        past: 60,
        future: 5,
    };
    match screen(alloc, message, moment, &settings) {
        Ok(screened) => Ok(screened),
        Err(_) => Err(Unread::Value),
    }
}

/// What is known of a chain.
#[derive(Drop)]
enum Known {
    Have(Judged),
    NoChain,
    Long,
    Unread,
}

impl Known {
    /// The same as a call is judged by it.
    fn state(&self) -> ChainState<'_>
        ensures { seen result ≡ known_seen self.now }
    {
        match self {
            Known::Have(judged) => ChainState::Have(judged),
            Known::NoChain => ChainState::NoChain,
            Known::Long => ChainState::Long,
            Known::Unread => ChainState::Unread,
        }
    }
}

/// What is known of the chains of a call's PASSporTs, in the order in which it went.
#[derive(Drop)]
struct KnownChains {
    known: Vec<Known>,
}

impl Chains for KnownChains {
    ghost use Rattle.std.specs.Prelude.{map};
    ghost use Rattle.vector_calls.specs.Known.{known_seen};

    ghost states = { λ chains. map known_seen chains.known.items };

    #[tactic(auto, using(crate::proofs::KnownLaws::known_count))]
    fn count(&self) -> usize {
        self.known.len()
    }

    #[tactic(auto, using(crate::proofs::KnownLaws::known_within, crate::proofs::KnownLaws::known_at))]
    fn state(&self, i: usize) -> ChainState<'_> {
        self.known[i].state()
    }
}

/// What calls are judged by: trust anchors, a code table, and x5us, each with its file or a word for what is known of
/// this.
#[derive(Clone, Copy)]
struct Case<'a> {
    anchors: &'a Anchors,
    table: &'a CodeTable,
    files: &'a [&'a [u8]],
}

impl<'a> Case<'a> {
    /// What the rules of the chains come to.
    fn judge(
        self,
        alloc: Global,
        screened: &Screened,
        moment: u64,
        provider: &mut AnswerProvider<'_>,
    ) -> Result<Verdict, Unread> {
        let mut known = Vec::new(alloc);
        for i in 0..screened.count() {
            let file = self.file(screened.passport(i).x5u());
            known.push(self.known(alloc, file, provider)?)?;
        }
        let chains = KnownChains { known };
        if chains.count() == screened.count() {
            Ok(finish(screened, &chains, moment, self.table, provider))
        } else {
            Err(Unread::Value)
        }
    }

    /// The word after an x5u; `none` if it isn't listed.
    fn file(self, x5u: &[u8]) -> &'a [u8] {
        let mut rest = self.files;
        for _ in self.files {
            let [name, file, behind @ ..] = rest else {
                break;
            };
            if *name == x5u {
                return file;
            }
            rest = behind;
        }
        b"none"
    }

    /// What is known of the chain in a file.
    fn known(
        self,
        alloc: Global,
        file: &[u8],
        provider: &mut AnswerProvider<'_>,
    ) -> Result<Known, Unread> {
        match file {
            b"none" => Ok(Known::NoChain),
            b"long" => Ok(Known::Long),
            b"unread" => Ok(Known::Unread),
            _ => Ok(Known::Have(judged(alloc, file, self.anchors, self.table, provider)?)),
        }
    }
}

/// Puts a verdict and its place after other words.
fn put_verdict(answer: Answer, verdict: Verdict) -> Answer {
    match verdict {
        Verdict::Passed => answer.word("passed"),
        Verdict::Refused(refusal) => put_refusal(answer, refusal),
        Verdict::Unread(place) => put_place(answer.word("unread"), place),
        Verdict::Unasked(place) => put_place(answer.word("unasked"), place),
    }
}
