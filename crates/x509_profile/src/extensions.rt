//! The extensions of a certificate (RFC 5280, section 4.2).

ghost use Rattle.std.specs.Prelude.{◌+◌, length};
ghost use Rattle.der_reader.specs.Each.{each_in};
ghost use Rattle.der_reader.specs.Part.{end_of, item_of, or_broken, part_of};
ghost use Rattle.claim_constraints.specs.Read.{read_constraints};
ghost use Rattle.tn_auth_list.specs.Read.{read_list};
ghost use Rattle.x509_profile.specs.Extensions.{optional_in, values_with};
ghost use Rattle.x509_profile.specs.Fault.{Gives, IsPlacedUpTo};
ghost use Rattle.x509_profile.specs.View.{no_values};

use crate::contents::{
    BasicConstraints, or_broken, read_authority, read_basic, read_extension, read_subject_key,
    read_usage,
};
use crate::extension_id::ExtensionId;
use crate::fault::CertFault;
use crate::octets::Octets;
use claim_constraints::{ConstraintFault, Constraints};
use der_reader::tags::SEQUENCE;
use der_reader::{Fault, Item, Part};
use std::alloc::Global;
use std::marker::Model;
use tn_auth_list::{AuthList, ListFault};

/// The tag of the extensions in the signed part, [3].
const EXTENSIONS: u8 = 0xA3;

/// The extensions of the profile, each if it is there.
#[derive(Default, Drop)]
pub(crate) struct KnownExtensions {
    pub basic: Option<BasicConstraints>,
    /// The key usages, bit i of the BIT STRING as bit i of the number.
    pub usage: Option<u16>,
    pub subject_key: Option<Octets>,
    /// The inner option is that of the identifier.
    pub authority: Option<Option<Octets>>,
    pub list: Option<AuthList>,
    pub constraints: Option<Constraints>,
}

impl Model for KnownExtensions {
    ghost use Rattle.x509_profile.specs.View.{Values};

    ghost Value = { Values };

    ghost view = { λ k. record {
      basic = k.basic;
      usage = k.usage;
      subject_key = k.subject_key;
      authority = k.authority;
      list = k.list;
      constraints = k.constraints;
    } };
}

impl KnownExtensions {
    /// The extensions that may come there, after the key and up to the end of the signed part: by their explicit tag,
    /// one SEQUENCE, and nothing after it.
    #[tactic(auto, unfolding(crate::specs::Extensions::optional_in, crate::specs::Extensions::marked_in))]
    pub fn read(alloc: Global, part: &Part) -> Result<KnownExtensions, CertFault>
        ensures exact { Gives (λ known. known) result (optional_in (part_of part.now)) }
        ensures place { IsPlacedUpTo (end_of part.now) result }
    {
        if part.left.is_empty() {
            return Ok(KnownExtensions::default());
        }
        let marked = part.element(EXTENSIONS)?;
        let sequence = marked.content().element(SEQUENCE)?;
        let known = KnownExtensions::read_each(alloc, &sequence.content())?;
        sequence.behind.end(())?;
        marked.behind.end(())?;
        Ok(known)
    }

    /// The extensions that are there, one after another.
    #[tactic(auto, using(der_reader::proofs::EachLaws::at_first))]
    fn read_each(alloc: Global, part: &Part) -> Result<KnownExtensions, CertFault>
        ensures exact { Gives (λ known. known) result (each_in values_with no_values (part_of part.now)) }
        ensures place { IsPlacedUpTo (end_of part.now) result }
    {
        let mut known = KnownExtensions::default();
        let mut rest = *part;
        'extensions: while !rest.left.is_empty() {
            let item = rest.item()?;
            known.add(alloc, &item)?;
            rest = item.behind;
        }
        Ok(known)
    }

    /// Adds the extension that an element is.
    #[tactic(auto, unfolding(crate::specs::Extensions::values_with))]
    fn add(&mut self, alloc: Global, item: &Item) -> Result<(), CertFault>
        ensures exact { Gives (λ _. self.new) result (values_with self.old (item_of item.now)) }
        ensures place { IsPlacedUpTo (item.now.place + length item.now.der.whole.now) result }
    {
        let broken = item.fault(CertFault::DER);
        let extension = or_broken(read_extension(item.der.whole), broken)?;
        let value = extension.octets.content;
        let inner = item.place + (item.der.whole.len() - extension.octets.whole.len()) as u32;
        match ExtensionId::of(extension.oid) {
            ExtensionId::BasicConstraints if self.basic.is_none() => {
                self.basic = Some(or_broken(read_basic(value), broken)?);
            }
            ExtensionId::KeyUsage if self.usage.is_none() => {
                self.usage = Some(or_broken(read_usage(value), broken)?);
            }
            ExtensionId::SubjectKey if self.subject_key.is_none() => {
                self.subject_key = Some(read_subject_key(alloc, value, broken)?);
            }
            ExtensionId::AuthorityKey if self.authority.is_none() => {
                self.authority = Some(read_authority(alloc, value, broken)?);
            }
            ExtensionId::AuthorityList if self.list.is_none() => {
                self.list = Some(read_list(alloc, value, Fault::at(CertFault::LIST, inner))?);
            }
            ExtensionId::ClaimConstraints if self.constraints.is_none() => {
                let unreadable = Fault::at(CertFault::CONSTRAINT, inner);
                self.constraints = Some(read_constraints(alloc, value, unreadable)?);
            }
            ExtensionId::EnhancedConstraints => {
                return Err(item.fault(CertFault::CONSTRAINT).into());
            }
            ExtensionId::Unknown if extension.critical => {
                return Err(item.fault(CertFault::CRITICAL).into());
            }
            ExtensionId::Unknown => {}
            _ => return Err(broken.into()),
        }
        Ok(())
    }
}

/// The authorization list that a content is (RFC 8226, section 9). Any fault in it is this one.
fn read_list(alloc: Global, value: &[u8], broken: Fault) -> Result<AuthList, CertFault>
    ensures exact { Gives (λ list. list) result (or_broken (read_list value.now) broken) }
    ensures place { IsPlacedUpTo broken.place result }
{
    match AuthList::read(alloc, value) {
        Ok(list) => Ok(list),
        Err(ListFault::At { .. }) => Err(broken.into()),
        Err(ListFault::Memory) => Err(CertFault::Memory),
    }
}

/// The constraints on claims that a content is, in this project's own form. Any fault in it is this one.
fn read_constraints(alloc: Global, value: &[u8], broken: Fault) -> Result<Constraints, CertFault>
    ensures exact { Gives (λ constraints. constraints) result (or_broken (read_constraints value.now) broken) }
    ensures place { IsPlacedUpTo broken.place result }
{
    match Constraints::read(alloc, value) {
        Ok(constraints) => Ok(constraints),
        Err(ConstraintFault::At { .. }) => Err(broken.into()),
        Err(ConstraintFault::Memory) => Err(CertFault::Memory),
    }
}
