//! What calls are judged by.
use crate::map::ChainMap;
use delegation::Anchors;
use tn_auth_list::CodeTable;

/// What calls are judged by, beside the settings: which file has the certificates of which x5u, which certificates are
/// trusted, and which numbers a service provider code stands for.
#[derive(Drop)]
pub struct World {
    pub chains: ChainMap,
    pub anchors: Anchors,
    pub table: CodeTable,
}
