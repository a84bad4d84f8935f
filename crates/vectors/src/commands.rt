//! Words of command lines, and the files that they name: the calls of `stir_words` and `stir_files`.

use passport_claims::Form;
use std::alloc::Global;
use stir_files::read_materials;
use stir_outside::{OneThread, ShelfMem};
use stir_words::{
    Asking, Claiming, Diverting, Drilling, HolderFiles, Judging, Order, Retargeting, Settings,
    Signer, Signing, Verifying, WordsFault,
};
use vector_table::{Answer, Unread, files_of, numbers_of, put_local, text, word};

/// What a call on words answers.
pub fn words(alloc: Global, call: &str, words: &[&[u8]]) -> Result<String, Unread> {
    match call {
        "order" => order(alloc, words),
        _ => Err(Unread::Call),
    }
}

/// What the words of a command line ask for.
fn order(alloc: Global, words: &[&[u8]]) -> Result<String, Unread> {
    let texts = texts_of(alloc, words)?;
    match Order::of(alloc, texts.as_slice()) {
        Ok(order) => put_order(Answer::new(alloc), &order).line(),
        Err(WordsFault::Refused) => word(alloc, "refused"),
        Err(WordsFault::Memory) => Err(Unread::Memory),
    }
}

/// Puts the name of a command and the values of its options after other words.
fn put_order(answer: Answer, order: &Order<'_>) -> Answer {
    match order {
        Order::Verify(verifying) => put_verifying(answer.word("verify"), verifying),
        Order::Explain(judging) => put_judging(answer.word("explain"), judging),
        Order::Ask(asking) => put_asking(answer.word("ask"), asking),
        Order::Sign(signing) => put_signing(answer.word("sign"), signing),
        Order::Divert(diverting) => put_diverting(answer.word("divert"), diverting),
        Order::Show => answer.word("show"),
        Order::Drill(drilling) => put_drilling(answer.word("drill"), drilling),
        Order::Retarget(words) => put_retargeting(answer.word("retarget"), words),
        Order::Once(claiming) => put_claiming(answer.word("once"), claiming),
    }
}

/// The texts that some words are.
fn texts_of<'a>(alloc: Global, words: &[&'a [u8]]) -> Result<Vec<&'a str>, Unread> {
    let mut texts = Vec::new(alloc);
    for word in words {
        texts.push(text(word)?)?;
    }
    Ok(texts)
}

/// Puts the four names, the settings, the name of the state or `-`, and the number of workers after other words.
fn put_verifying(answer: Answer, verifying: &Verifying<'_>) -> Answer {
    let answer = put_judging(answer, &verifying.judging);
    let answer = match verifying.state {
        Some(name) => answer.text(name.as_bytes()),
        None => answer.word("-"),
    };
    answer.word(verifying.workers)
}

/// Puts the four names and the settings after other words.
fn put_judging(answer: Answer, judging: &Judging<'_>) -> Answer {
    let answer = answer
        .text(judging.chains.as_bytes())
        .text(judging.anchors.as_bytes())
        .text(judging.table.as_bytes())
        .text(judging.answers.as_bytes());
    put_settings(answer, &judging.settings)
}

/// Puts the three names and the settings after other words.
fn put_asking(answer: Answer, asking: &Asking<'_>) -> Answer {
    let answer = answer
        .text(asking.chains.as_bytes())
        .text(asking.anchors.as_bytes())
        .text(asking.table.as_bytes());
    put_settings(answer, &asking.settings)
}

/// Puts how old and how far ahead a PASSporT may be, the country and the length of national numbers after other words.
fn put_settings(answer: Answer, settings: &Settings) -> Answer {
    put_local(
        answer.word(settings.past).word(settings.future),
        &settings.local,
    )
}

/// Puts what is to be signed of a call after other words. This is the form, with the attestation and the identifier if
/// it has them, and then by which key.
fn put_signing(answer: Answer, signing: &Signing<'_>) -> Answer {
    put_signer(put_form(answer, &signing.form), &signing.signer)
}

/// Puts how a diversion is to be signed after other words: the earlier number, and then by which key.
fn put_diverting(answer: Answer, diverting: &Diverting<'_>) -> Answer {
    put_signer(answer.word(diverting.earlier), &diverting.signer)
}

/// Puts the key, the URI, the second, the local numbering, and the files of the answers and of the holder after other
/// words.
fn put_signer(answer: Answer, signer: &Signer<'_>) -> Answer {
    let answer = answer
        .text(signer.key.as_bytes())
        .text(signer.x5u.as_bytes())
        .word(signer.iat);
    let answer = put_local(answer, &signer.local).text(signer.answers.as_bytes());
    put_holder(answer, &signer.holder)
}

/// Puts by what a call is judged after other words, then how its diversion is signed, where it goes on, the file of the
/// certificate, and the moment.
fn put_retargeting(answer: Answer, words: &Retargeting<'_>) -> Answer {
    put_judging(answer, &words.judging)
        .text(words.key.as_bytes())
        .text(words.x5u.as_bytes())
        .word(words.iat)
        .text(words.target.as_bytes())
        .text(words.leaf.as_bytes())
        .word(words.moment)
}

/// Puts the seed, the count and the number of workers after other words.
fn put_drilling(answer: Answer, drilling: &Drilling) -> Answer {
    answer
        .word(drilling.seed)
        .word(drilling.count)
        .word(drilling.workers)
}

/// Puts how many slots a level has and the number of workers after other words.
fn put_claiming(answer: Answer, claiming: &Claiming) -> Answer {
    answer.word(claiming.size).word(claiming.workers)
}

/// Puts a form after other words.
fn put_form(answer: Answer, form: &Form) -> Answer {
    match form {
        Form::Base => answer.word("base"),
        Form::Compact => answer.word("compact"),
        Form::Shaken { attest, origid } => answer.word("shaken").word(attest.as_str()).text(origid),
    }
}

/// Puts the two files of the holder after other words, or `-` for each.
fn put_holder(answer: Answer, holder: &Option<HolderFiles<'_>>) -> Answer {
    match holder {
        Some(files) => answer
            .text(files.leaf.as_bytes())
            .text(files.table.as_bytes()),
        None => answer.word("-").word("-"),
    }
}

/// The words that name the files which are read.
const NAMES: [&str; 5] = [
    "verify",
    "--chains=c.txt",
    "--anchors=a.der",
    "--table=t.txt",
    "--answers=w.txt",
];

/// What a call on named files answers.
pub fn files(alloc: Global, call: &str, words: &[&[u8]]) -> Result<String, Unread> {
    match call {
        "read" => read(alloc, words),
        _ => Err(Unread::Call),
    }
}

/// What comes of reading the files, some of whose reads fail, and how many were read.
fn read(alloc: Global, words: &[&[u8]]) -> Result<String, Unread> {
    let [failing, files @ ..] = words else {
        return Err(Unread::Call);
    };
    let failing = numbers_of(alloc, failing)?;
    let mut shelf = ShelfMem::new(files_of(alloc, files)?, failing);
    match Order::of(alloc, &NAMES) {
        Ok(Order::Verify(verifying)) => {
            let answer = put_read(alloc, &mut shelf, &verifying.judging)?;
            answer.word(shelf.reads()).line()
        }
        _ => Err(Unread::Call),
    }
}

/// `ok`, or the line and the status of the first file that can't be had.
fn put_read(alloc: Global, shelf: &mut ShelfMem, judging: &Judging<'_>) -> Result<Answer, Unread> {
    match read_materials(alloc, shelf, &OneThread, judging) {
        Ok(_) => Ok(Answer::new(alloc).word("ok")),
        Err(stop) => {
            let line = stop.line(alloc)?;
            let answer = Answer::new(alloc).text(line.as_bytes());
            Ok(answer.word(stop.status().number()))
        }
    }
}
