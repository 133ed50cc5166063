/// How the program ended: its status, and the ports that it was given.
pub struct HeadroomEnd<S, K> {
    pub status: u8,
    pub source: S,
    pub sink: K,
}
