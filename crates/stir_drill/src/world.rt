//! The files of the drill, but for its log.
ghost use Rattle.std.specs.Prelude.{◌≡◌, ◌≤◌, ◌++◌, ◌∷◌, [], length, OnOk, IfOk};
ghost use Rattle.std.specs.List.{flat_map};
ghost use Rattle.stir_drill.specs.Certificates as texts;
ghost use Rattle.stir_drill.specs.Made.{IsMade};
ghost use Rattle.stir_drill.specs.World as specs;

use crate::Memory;
use crate::certificates::{
    Certificate, Named, authority_extensions, leaf_extensions, make_certificate,
};
use std::alloc::Global;
use stir_outside::ShelfMem;

/// The name of the chain's file on the shelf.
const CHAIN_NAME: &str = "drill.der";

/// The line of the chain map.
const CHAIN_MAP: &str = "https://cert.example.org/drill.cer drill.der\n";

/// The files of the drill that don't depend on its calls.
#[derive(Drop)]
pub(crate) struct World {
    pub(crate) shelf: ShelfMem,
    pub(crate) anchors: Vec<u8>,
    pub(crate) chains: Vec<u8>,
    /// The answers that confirm the signatures of the chain.
    pub(crate) answers: Vec<u8>,
}

/// The three certificates.
#[derive(Drop)]
struct Certificates {
    root: Certificate,
    intermediate: Certificate,
    leaf: Certificate,
}

impl World {
    /// Makes the files.
    pub(crate) fn make(alloc: Global) -> Result<World, Memory>
        ensures shelf { IfOk result (λ world. world.shelf ≡ specs.shelf) }
        ensures anchors { IfOk result (λ world. world.anchors.items ≡ specs.anchors_text) }
        ensures chains { IfOk result (λ world. world.chains.items ≡ specs.chain_map_text) }
        ensures answers { IfOk result (λ world. world.answers.items ≡ flat_map specs.answer_line specs.chain_triples) }
    {
        let made = make_certificates(alloc)?;
        let answers = chain_answers(alloc, &made)?;
        let shelf = shelf_with(alloc, made.leaf.bytes, &made.intermediate.bytes)?;
        let chains = Vec::from_slice(alloc, CHAIN_MAP.as_bytes())?;
        Ok(World {
            shelf,
            anchors: made.root.bytes,
            chains,
            answers,
        })
    }
}

/// Makes the certificates.
fn make_certificates(alloc: Global) -> Result<Certificates, Memory>
    ensures root { IfOk result (λ made. IsMade made.root texts.root) }
    ensures intermediate { IfOk result (λ made. IsMade made.intermediate texts.intermediate) }
    ensures leaf { IfOk result (λ made. IsMade made.leaf texts.leaf) }
{
    let authority = authority_extensions(alloc)?;
    let numbers = leaf_extensions(alloc)?;
    let root = make_certificate(alloc, Named::ROOT, &authority)?;
    let intermediate = make_certificate(alloc, Named::INTERMEDIATE, &authority)?;
    let leaf = make_certificate(alloc, Named::LEAF, &numbers)?;
    Ok(Certificates {
        root,
        intermediate,
        leaf,
    })
}

/// The answers that confirm the signatures of the leaf and of who issued it.
fn chain_answers(alloc: Global, made: &Certificates) -> Result<Vec<u8>, Memory>
    requires intermediate { IsMade made.now.intermediate texts.intermediate }
    requires leaf { IsMade made.now.leaf texts.leaf }
    ensures { IfOk result (λ answers. answers.items ≡ flat_map specs.answer_line specs.chain_triples) }
{
    let mut answers = Vec::new(alloc);
    put_answer(
        alloc,
        &mut answers,
        &Named::INTERMEDIATE.key(),
        &made.leaf.digest,
        &Named::LEAF.scalars(),
    )?;
    put_answer(
        alloc,
        &mut answers,
        &Named::ROOT.key(),
        &made.intermediate.digest,
        &Named::INTERMEDIATE.scalars(),
    )?;
    Ok(answers)
}

/// Appends the line that confirms a signature.
pub(crate) fn put_answer(
    alloc: Global,
    answers: &mut Vec<u8>,
    key: &[u8],
    digest: &[u8],
    signature: &[u8],
) -> Result<(), Memory>
    ensures { OnOk result (answers.new.items ≡ answers.old.items
        ++ specs.answer_line (specs.triple key.now digest.now signature.now)) }
{
    answers.extend_from_slice(b"confirm ")?;
    answers.extend_from_slice(hex::encode(alloc, key)?.as_bytes())?;
    answers.push(b' ')?;
    answers.extend_from_slice(hex::encode(alloc, digest)?.as_bytes())?;
    answers.push(b' ')?;
    answers.extend_from_slice(hex::encode(alloc, signature)?.as_bytes())?;
    answers.push(b'\n')?;
    Ok(())
}

/// The shelf with the one file of the chain.
fn shelf_with(alloc: Global, leaf: Vec<u8>, intermediate: &[u8]) -> Result<ShelfMem, Memory>
    ensures { IfOk result (λ shelf. shelf ≡ specs.shelf_with (leaf.items ++ intermediate.now)) }
{
    let mut chain = leaf;
    chain.extend_from_slice(intermediate)?;
    let name = Vec::from_slice(alloc, CHAIN_NAME.as_bytes())?;
    let mut files = Vec::new(alloc);
    files.push((name, chain))?;
    Ok(ShelfMem::new(files, Vec::new(alloc)))
}
