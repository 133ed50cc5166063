//! The names of which a board by chance has rows.
use diego_names::Name;
use std::test::Fail;

#[derive(Clone, Copy)]
pub(crate) struct Names {
    pub(crate) cells: (Name, Name, Name),
    pub(crate) processes: (Name, Name),
    pub(crate) tasks: (Name, Name),
    pub(crate) domains: (Name, Name),
}

fn two(first: &[u8], second: &[u8]) -> Result<(Name, Name), Fail> {
    Ok((Name::read(first)?, Name::read(second)?))
}

pub(crate) fn all_names() -> Result<Names, Fail> {
    let (first, second) = two(b"c1", b"c2")?;
    Ok(Names {
        cells: (first, second, Name::read(b"c3")?),
        processes: two(b"web", b"worker")?,
        tasks: two(b"t1", b"t2")?,
        domains: two(b"apps", b"jobs")?,
    })
}
