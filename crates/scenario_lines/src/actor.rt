use diego_names::Name;

/// Who acts. A client and a cell of one name are two actors.
#[derive(Clone, Copy, Debug, PartialEq, Eq, Hash)]
pub struct Actor {
    /// Whether it is a cell; else it is a client.
    pub cell: bool,
    pub name: Name,
}
