//! By whose key is signed, and under which table and numbering.
ghost use Rattle.open_calls.specs.Key.{HolderIs, key_of};

use auth_service::Holder;
use tn_auth_list::CodeTable;
use tn_values::Local;
use x509_profile::Certificate;

/// By what is signed: the first certificate of a chain, a code table and a local numbering.
#[derive(Clone, Copy)]
pub struct Key<'a> {
    /// The first certificate of the key's chain, if there is any.
    pub leaf: Option<&'a Certificate>,
    /// What the codes in its authority list stand for.
    pub table: &'a CodeTable,
    /// How the numbers of messages are read.
    pub local: Local,
}

impl<'a> Key<'a> {
    /// Who signs, if the first certificate has an authority list (RFC 8226, section 9).
    #[tactic(auto, using(crate::proofs::KeyLaws::no_leaf, crate::proofs::KeyLaws::no_list, crate::proofs::KeyLaws::is_holder))]
    pub fn holder(&self) -> Option<Holder<'a>>
        ensures { HolderIs (key_of self.now) result }
    {
        let Some(leaf) = self.leaf else {
            return None;
        };
        let Some(list) = leaf.list() else {
            return None;
        };
        Some(Holder {
            list,
            table: self.table,
        })
    }
}
