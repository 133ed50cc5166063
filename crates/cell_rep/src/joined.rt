use container_store::Store;
use diego_names::Name;

/// What a rep knows of its cell since it joined. The store has its totals and its epoch.
#[derive(Debug, Drop)]
pub struct Joined {
    pub zone: Name,
    pub tag: Option<Name>,
    /// Whether it is being emptied.
    pub draining: bool,
    pub store: Store,
}
